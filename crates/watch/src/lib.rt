// The watch: a trace table under pins, a bound, and a judge. It is fed, pinned, unpinned, given bounds and judged, in
// any order.
//
// What stands is the ledger, which follows from the table and the bound at the opening and from the calls since. Each
// call is one step of it, and a refused call changes nothing in it.
#![tactic(auto)]

ghost use Rattle.std.specs.Prelude.{◌≡◌};
ghost use Rattle.tables.specs.Refusals.{told, answered};
ghost use Rattle.judge.specs.Judging.{lists};
ghost use Rattle.judge.specs.Sheets.{sheet_lists, lengths};
ghost use Rattle.watch.specs.Ledger.{is_bound, open_answer, feed_answer, after_feed, pinning_answer, after_pinning, unpinning_answer, after_unpinning, bound_answer, after_bound};
ghost use Rattle.watch.specs.Judging.{Judging};
ghost use Rattle.watch.specs.Meaning.{ledger_of};

use costs::Cost;
use judge::judging::Judge;
use judge::sheet::Sheet;
use judge::verdict::Verdict;
use tables::TraceTable;
use tables::pins::Pins;
use tables::refusal::Refusal;

pub mod call;
pub mod cases;
pub mod conduct;
pub mod failure;
pub mod walk;

// The largest span of a bound.
pub const BOUND_LIMIT: u64 = 1_000_000;

// Clauses name its ledger by `ledger_of`: an `impl Model` was tried, and is refused, since a model's value must be data
// and a ledger holds functions (what each pair costs, and the pin of each event).
#[derive(Drop)]
pub struct Watch<T: TraceTable> {
    table: Pins<T>,
    bound: T::Value,
    judge: Judge<T::Value>,
}

impl<T: TraceTable> Watch<T> {
    // Opens a watch over a table and a bound, with no event pinned. Refused where the bound is below zero or its span
    // is above the limit.
    pub fn open(judge: Judge<T::Value>, table: T, bound: T::Value) -> Result<Watch<T>, Refusal>
    where
        T: Drop,
        ensures { told (ledger_of T.TraceTable.means) result ≡ open_answer T.Value.Cost.kind (T.TraceTable.means table) bound }
    {
        if !can_stand(&bound) {
            return Err(Refusal::Bound);
        }
        let table = Pins::over(table);
        Ok(Watch {
            table,
            bound,
            judge,
        })
    }

    // S: events and house numbers are 1 to S.
    pub fn size(&self) -> u32
        ensures { result ≡ (ledger_of T.TraceTable.means self.now).table.size }
    {
        self.table.size()
    }

    // One event more of the log. Refused where it is 0 or above S.
    pub fn feed(&mut self, event: u32) -> Result<(), Refusal>
        ensures answer { answered result ≡ feed_answer (ledger_of T.TraceTable.means self.old) event }
        ensures after { ledger_of T.TraceTable.means self.new ≡ after_feed (ledger_of T.TraceTable.means self.old) event }
    {
        self.table.take(event)
    }

    // Pins an event to a number.
    pub fn pin(&mut self, event: u32, number: u32) -> Result<(), Refusal>
        ensures answer { answered result ≡ pinning_answer (ledger_of T.TraceTable.means self.old) event number }
        ensures after { ledger_of T.TraceTable.means self.new ≡ after_pinning (ledger_of T.TraceTable.means self.old) event number }
    {
        self.table.pin(event, number)
    }

    // Removes the pin of an event.
    pub fn unpin(&mut self, event: u32) -> Result<(), Refusal>
        ensures answer { answered result ≡ unpinning_answer (ledger_of T.TraceTable.means self.old) event }
        ensures after { ledger_of T.TraceTable.means self.new ≡ after_unpinning (ledger_of T.TraceTable.means self.old) event }
    {
        self.table.unpin(event)
    }

    // Replaces the bound.
    pub fn set_bound(&mut self, bound: T::Value) -> Result<(), Refusal>
        ensures answer { answered result ≡ bound_answer T.Value.Cost.kind bound }
        ensures after { ledger_of T.TraceTable.means self.new ≡ after_bound T.Value.Cost.kind (ledger_of T.TraceTable.means self.old) bound }
    {
        if !can_stand(&bound) {
            return Err(Refusal::Bound);
        }
        self.bound = bound;
        Ok(())
    }

    // The verdict on the window, and what the five lists then hold: as the judge promises, by the pairs and the bound
    // that stand.
    pub fn judge(
        &mut self,
        numbers: &mut [u32],
        event_prices: &mut [T::Value],
        number_prices: &mut [T::Value],
        marks: &mut [u32],
        work: &mut [T::Value],
    ) -> Result<Verdict<T::Value>, Refusal>
        ensures right { Judging T.Value.Cost.kind (ledger_of T.TraceTable.means self.old) (lists numbers.old event_prices.old number_prices.old marks.old work.old) result (lists numbers.new event_prices.new number_prices.new marks.new work.new) }
        ensures after { ledger_of T.TraceTable.means self.new ≡ ledger_of T.TraceTable.means self.old }
    {
        self.judge.judge(
            &self.table,
            &self.bound,
            numbers,
            event_prices,
            number_prices,
            marks,
            work,
        )
    }

    // The same with five lists that are owned, and that keep their lengths.
    pub fn judge_sheet(&mut self, sheet: &mut Sheet<T::Value>) -> Result<Verdict<T::Value>, Refusal>
        ensures right { Judging T.Value.Cost.kind (ledger_of T.TraceTable.means self.old) (sheet_lists sheet.old) result (sheet_lists sheet.new) }
        ensures lengths { lengths (sheet_lists sheet.new) ≡ lengths (sheet_lists sheet.old) }
        ensures after { ledger_of T.TraceTable.means self.new ≡ ledger_of T.TraceTable.means self.old }
    {
        self.judge.judge_sheet(&self.table, &self.bound, sheet)
    }
}

// Whether a bound is not below zero, and its span not above the limit.
fn can_stand<C: Cost>(bound: &C) -> bool
    ensures { result ≡ is_bound C.Cost.kind bound.now }
{
    C::zero().at_most(bound) && bound.span() <= BOUND_LIMIT
}
