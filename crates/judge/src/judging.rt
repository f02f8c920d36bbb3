// The judge: for any trace table over any cost kind, an allowed renumbering of least cost with prices that prove it
// least, or a set of events that proves that none is allowed.
ghost use Rattle.std.specs.Prelude.{◌≡◌, ◌*◌, ◌≤◌, length, take, drop, IfOk, Ok, vec_len};
ghost use Rattle.tables.specs.Refusals.{told};
ghost use Rattle.tables.specs.Table.{pair_at};
ghost use Rattle.judge.specs.Allowed.{cost as cost_by};
ghost use Rattle.judge.specs.Grades.{Grid};
ghost use Rattle.judge.specs.Judging.{lists, Room, verdict_told, has_room, judge_answer, price_at, Left, Exact};
ghost use Rattle.judge.specs.Least.{judged};
ghost use Rattle.judge.specs.Prices.{Certified};
ghost use Rattle.judge.specs.Settling.{graded, Solvable};
ghost use Rattle.judge.specs.Sheets.{sheet_lists, lengths};
ghost use Rattle.judge.specs.Theory.{Theory};

use crate::grading::Pairs;
use crate::marks::write_marks;
use crate::matching::blocked_events;
use crate::reporting::{renumbering_cost, write_event_prices, write_numbers};
use crate::settling::{Seats, settle};
use crate::sheet::{Sheet, filled};
use crate::verdict::Verdict;
use costs::Cost;
use std::alloc::{AllocError, Global};
use tables::TraceTable;
use tables::grade::Grade;
use tables::refusal::Refusal;

// As many grades as a table of the largest size has pairs.
const GRADES: usize = 1024;

// A judge with its working memory, the grades of all pairs of one window. It is made once; judging allocates nothing.
#[derive(Drop)]
pub struct Judge<C> {
    grades: Vec<Grade<C>>,
    ghost whole: { 1024 ≤ vec_len grades },
}

impl<C: Cost> Judge<C> {
    // Fails only for want of memory. Its promise also names the theorems that every judgement rests on.
    pub fn new(heap: Global) -> Result<Judge<C>, AllocError>
        ensures memory { IfOk result (λ j. vec_len j.grades ≡ 1024) }
        ensures theory { Theory C }
    {
        let grades = filled(heap, Grade::Closed, GRADES)?;
        Ok(Judge { grades })
    }

    // The verdict on the table's window. Refused where a list is too short or the window is not full; then no list is
    // altered. After 'within' and 'over' the lists hold the renumbering and its prices, after 'none' the marked set.
    pub fn judge<T: TraceTable<Value = C>>(
        &mut self,
        table: &T,
        bound: &C,
        numbers: &mut [u32],
        event_prices: &mut [C],
        number_prices: &mut [C],
        marks: &mut [u32],
        work: &mut [C],
    ) -> Result<Verdict<C>, Refusal>
        ensures answer { told verdict_told result ≡ judge_answer C.Cost.kind (T.TraceTable.means table.now) bound.now (lists numbers.old event_prices.old number_prices.old marks.old work.old) }
        ensures left { Left C.Cost.kind (T.TraceTable.means table.now) (lists numbers.old event_prices.old number_prices.old marks.old work.old) result (lists numbers.new event_prices.new number_prices.new marks.new work.new) }
        ensures exact { IfOk result (λ v. Exact C.Cost.kind (T.TraceTable.means table.now) bound.now v) }
    {
        let size = table.size() as usize;
        if !is_roomy(
            size,
            numbers.len(),
            event_prices.len(),
            number_prices.len(),
            marks.len(),
            work.len(),
        ) {
            return Err(Refusal::ListShort);
        }
        if table.held() < table.places() {
            return Err(Refusal::WindowShort);
        }
        let grades = self.grades.as_mut_slice();
        let verdict = settle_window(
            table,
            bound,
            grades,
            numbers,
            event_prices,
            number_prices,
            marks,
            work,
        );
        Ok(verdict)
    }

    // The same with five lists that are owned. That they keep their lengths is a fact of the call, which their type cannot say.
    pub fn judge_sheet<T: TraceTable<Value = C>>(
        &mut self,
        table: &T,
        bound: &C,
        sheet: &mut Sheet<C>,
    ) -> Result<Verdict<C>, Refusal>
        ensures answer { told verdict_told result ≡ judge_answer C.Cost.kind (T.TraceTable.means table.now) bound.now (sheet_lists sheet.old) }
        ensures left { Left C.Cost.kind (T.TraceTable.means table.now) (sheet_lists sheet.old) result (sheet_lists sheet.new) }
        ensures exact { IfOk result (λ v. Exact C.Cost.kind (T.TraceTable.means table.now) bound.now v) }
        ensures lengths { lengths (sheet_lists sheet.new) ≡ lengths (sheet_lists sheet.old) }
    {
        self.judge(
            table,
            bound,
            &mut sheet.numbers,
            &mut sheet.event_prices,
            &mut sheet.number_prices,
            &mut sheet.marks,
            &mut sheet.work,
        )
    }
}

// Whether lists of these lengths are long enough for that many events.
pub fn is_roomy(
    size: usize,
    numbers: usize,
    event_prices: usize,
    number_prices: usize,
    marks: usize,
    work: usize,
) -> bool
    ensures { result ≡ has_room size numbers event_prices number_prices marks work }
{
    size <= numbers
        && size <= event_prices
        && size <= number_prices
        && size <= marks
        && size <= work / 8
}

// The verdict on a full window, with lists that are long enough.
// The lists stay parameters: a struct of them makes no clause shorter, and the check has no rule for reading one of its lists while another is written.
fn settle_window<C: Cost, T: TraceTable<Value = C>>(
    table: &T,
    bound: &C,
    grades: &mut [Grade<C>],
    numbers: &mut [u32],
    event_prices: &mut [C],
    number_prices: &mut [C],
    marks: &mut [u32],
    work: &mut [C],
) -> Verdict<C>
    requires grid { Grid grades.old (T.TraceTable.means table.now).size }
    requires room { Room (T.TraceTable.means table.now).size (lists numbers.old event_prices.old number_prices.old marks.old work.old) }
    ensures verdict { result ≡ judged C.Cost.kind (pair_at (T.TraceTable.means table.now)) (T.TraceTable.means table.now).size bound.now }
    ensures left { Left C.Cost.kind (T.TraceTable.means table.now) (lists numbers.old event_prices.old number_prices.old marks.old work.old) (Ok result) (lists numbers.new event_prices.new number_prices.new marks.new work.new) }
    ensures exact { Exact C.Cost.kind (T.TraceTable.means table.now) bound.now result }
{
    let pairs = Pairs::read(table, grades);
    let size = pairs.size();
    if let Some(set) = blocked_events(&pairs.open_rows(), size as u32) {
        write_marks(set, size, marks);
        return Verdict::None;
    }
    let cost = settle_pairs(&pairs, numbers, event_prices, number_prices, work);
    if cost.at_most(bound) {
        Verdict::Within(cost)
    } else {
        Verdict::Over(cost)
    }
}

// Writes a least renumbering and its prices, and answers its cost.
fn settle_pairs<C: Cost>(
    pairs: &Pairs<C>,
    numbers: &mut [u32],
    event_prices: &mut [C],
    number_prices: &mut [C],
    work: &mut [C],
) -> C
    requires solvable { Solvable C.Cost.kind (graded pairs.now) pairs.now.size }
    requires room { (pairs.now.size ≤ length numbers.old) × (pairs.now.size ≤ length event_prices.old) × (pairs.now.size ≤ length number_prices.old) × (pairs.now.size ≤ length work.old) }
    ensures certified { Certified C.Cost.kind (graded pairs.now) pairs.now.size (take pairs.now.size numbers.new) (price_at C.Cost.kind event_prices.new) (price_at C.Cost.kind number_prices.new) }
    ensures cost { result ≡ cost_by C.Cost.kind (graded pairs.now) (take pairs.now.size numbers.new) }
    ensures beyond { (drop pairs.now.size numbers.new ≡ drop pairs.now.size numbers.old) × (drop pairs.now.size event_prices.new ≡ drop pairs.now.size event_prices.old) × (drop pairs.now.size number_prices.new ≡ drop pairs.now.size number_prices.old) }
{
    let mut seats = Seats::new();
    settle(pairs, &mut seats, number_prices, work);
    write_numbers(&seats.numbers, pairs.size(), numbers);
    write_event_prices(pairs, numbers, number_prices, event_prices);
    let Grade::Open(cost) = renumbering_cost(pairs, numbers) else {
        unreachable()
    };
    cost
}
