// From hit to hit in a log.
ghost use Rattle.std.specs.Prelude.{◌≡◌, ◌+◌, ◌-◌, ◌^◌, ◌<◌, ◌≤◌, not, length, take, position};
ghost use Rattle.tables.specs.Table.{within};
ghost use Rattle.judge.specs.Judging.{lists, Room};
ghost use Rattle.judge.specs.Sheets.{sheet_lists, lengths};
ghost use Rattle.watch.specs.Ledger.{after_feed};
ghost use Rattle.watch.specs.Meaning.{ledger_of};
ghost use Rattle.watch.specs.Walking.{outcome, walk as walk_of, log_from, after_feeds, LeftBy, Walked, next_told, next_answer, after_next, NextLeft};

use crate::Watch;
use judge::judging::is_roomy;
use judge::sheet::Sheet;
use judge::verdict::Verdict;
use tables::{TraceTable, is_within};

// What next answers: how many events it fed, the cost of the hit if it found one, and how many windows lay within the
// bound, over it, and had no renumbering: three counts as a tuple, here and in a report, as the rules answer them.
#[derive(Clone, Copy)]
pub struct Next<C> {
    pub fed: usize,
    pub hit: Option<C>,
    pub counts: (usize, usize, usize),
}

// Why next is refused.
#[derive(Clone, Copy, PartialEq, Eq, Debug)]
pub enum NextRefusal {
    // 16: the position is 0, or above the log's length by more than 1
    Position,
    // 15: a list is too short
    ListShort,
    // 5: the event at this position is 0 or above the size
    Event(usize),
}

impl<T: TraceTable> Watch<T> {
    // Feeds the log from a position on, the first event being at 1, and judges after each feed that leaves the window
    // full, up to the first hit or the end of the log.
    pub fn next(
        &mut self,
        log: &[u32],
        position: usize,
        numbers: &mut [u32],
        event_prices: &mut [T::Value],
        number_prices: &mut [T::Value],
        marks: &mut [u32],
        work: &mut [T::Value],
    ) -> Result<Next<T::Value>, NextRefusal>
        ensures answer { next_told result ≡ next_answer T.Value.Cost.kind (ledger_of T.TraceTable.means self.old) log.now position (lists numbers.old event_prices.old number_prices.old marks.old work.old) }
        ensures after { ledger_of T.TraceTable.means self.new ≡ after_next (ledger_of T.TraceTable.means self.old) log.now position result }
        ensures left { NextLeft T.Value.Cost.kind (ledger_of T.TraceTable.means self.old) log.now position (lists numbers.old event_prices.old number_prices.old marks.old work.old) result (lists numbers.new event_prices.new number_prices.new marks.new work.new) }
    {
        if position == 0 || position - 1 > log.len() {
            return Err(NextRefusal::Position);
        }
        let size = self.table.size();
        if !is_roomy(
            size as usize,
            numbers.len(),
            event_prices.len(),
            number_prices.len(),
            marks.len(),
            work.len(),
        ) {
            return Err(NextRefusal::ListShort);
        }
        let events = events_from(log, position);
        match first_outside(size, events) {
            Some(i) => Err(NextRefusal::Event(position + i)),
            None => Ok(self.walk(events, numbers, event_prices, number_prices, marks, work)),
        }
    }

    // The same with five lists that are owned, and that keep their lengths.
    pub fn next_sheet(
        &mut self,
        log: &[u32],
        position: usize,
        sheet: &mut Sheet<T::Value>,
    ) -> Result<Next<T::Value>, NextRefusal>
        ensures answer { next_told result ≡ next_answer T.Value.Cost.kind (ledger_of T.TraceTable.means self.old) log.now position (sheet_lists sheet.old) }
        ensures lengths { lengths (sheet_lists sheet.new) ≡ lengths (sheet_lists sheet.old) }
        ensures after { ledger_of T.TraceTable.means self.new ≡ after_next (ledger_of T.TraceTable.means self.old) log.now position result }
        ensures left { NextLeft T.Value.Cost.kind (ledger_of T.TraceTable.means self.old) log.now position (sheet_lists sheet.old) result (sheet_lists sheet.new) }
    {
        self.next(
            log,
            position,
            &mut sheet.numbers,
            &mut sheet.event_prices,
            &mut sheet.number_prices,
            &mut sheet.marks,
            &mut sheet.work,
        )
    }

    // Feeds the events one by one and judges each full window, up to the first hit.
    // The five lists stay apart here too: a struct of them would want five clauses more of each function, that each of
    // its `&mut` is still the caller's.
    fn walk(
        &mut self,
        events: &[u32],
        numbers: &mut [u32],
        event_prices: &mut [T::Value],
        number_prices: &mut [T::Value],
        marks: &mut [u32],
        work: &mut [T::Value],
    ) -> Next<T::Value>
        requires room { Room (ledger_of T.TraceTable.means self.old).table.size (lists numbers.old event_prices.old number_prices.old marks.old work.old) }
        ensures answer { result ≡ walk_of T.Value.Cost.kind (ledger_of T.TraceTable.means self.old) events.now }
        ensures after { ledger_of T.TraceTable.means self.new ≡ after_feeds (ledger_of T.TraceTable.means self.old) (take result.fed events.now) }
        ensures left { Walked T.Value.Cost.kind (ledger_of T.TraceTable.means self.old) events.now (lists numbers.old event_prices.old number_prices.old marks.old work.old) (lists numbers.new event_prices.new number_prices.new marks.new work.new) }
    {
        let mut over = 0;
        let mut none = 0;
        for (i, event) in events.iter().enumerate() {
            match self.judge_after(*event, numbers, event_prices, number_prices, marks, work) {
                None => {}
                Some(Verdict::Within(cost)) => {
                    return Next {
                        fed: i + 1,
                        hit: Some(cost),
                        counts: (1, over, none),
                    };
                }
                Some(Verdict::Over(_cost)) => over += 1,
                Some(Verdict::None) => none += 1,
            }
        }
        Next {
            fed: events.len(),
            hit: None,
            counts: (0, over, none),
        }
    }

    // Feeds one event, and judges the window if it is then full: none where it is not.
    fn judge_after(
        &mut self,
        event: u32,
        numbers: &mut [u32],
        event_prices: &mut [T::Value],
        number_prices: &mut [T::Value],
        marks: &mut [u32],
        work: &mut [T::Value],
    ) -> Option<Verdict<T::Value>>
        requires room { Room (ledger_of T.TraceTable.means self.old).table.size (lists numbers.old event_prices.old number_prices.old marks.old work.old) }
        ensures outcome { result ≡ outcome T.Value.Cost.kind (after_feed (ledger_of T.TraceTable.means self.old) event) }
        ensures after { ledger_of T.TraceTable.means self.new ≡ after_feed (ledger_of T.TraceTable.means self.old) event }
        ensures left { LeftBy T.Value.Cost.kind (after_feed (ledger_of T.TraceTable.means self.old) event) result (lists numbers.old event_prices.old number_prices.old marks.old work.old) (lists numbers.new event_prices.new number_prices.new marks.new work.new) }
    {
        let _ = self.feed(event);
        self.judge(numbers, event_prices, number_prices, marks, work)
            .ok()
    }
}

// The events of a log from a position on.
fn events_from(log: &[u32], position: usize) -> &[u32]
    requires { (position - 1 ≤ length log.now) × (1 ≤ position) }
    ensures { result.now ≡ log_from position log.now }
{
    &log[position - 1..]
}

// Where the first event is that is 0 or above the size, counted from 0. Out of line, since this loop over the whole rest
// of the log comes out shorter by itself than inside of `next`.
#[inline(never)]
fn first_outside(size: u32, events: &[u32]) -> Option<usize>
    ensures { result ≡ position (λ e. not (within size e)) events.now }
{
    events.iter().position(|event| !is_within(size, *event))
}
