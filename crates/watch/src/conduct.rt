// A whole list of calls on one watch.
ghost use Rattle.std.specs.Prelude.{◌≡◌, MatchResult};
ghost use Rattle.watch.specs.Calls.{step};
ghost use Rattle.watch.specs.Meaning.{ledger_of};
ghost use Rattle.watch.specs.Run.{Right, Conducted, NotConducted};

use crate::Watch;
use crate::call::{Answer, Call};
use crate::failure::Failure;
use judge::judging::Judge;
use std::alloc::Global;
use tables::TraceTable;
use tables::refusal::Refusal;

// Why a list of calls was not carried out: the watch was not opened, or there was no memory.
pub type ConductError = Failure<Refusal>;

// Opens a watch over a table and a bound, carries out a list of calls on it, and answers each in turn. Each answer is
// right by the ledger that the calls before it leave.
pub fn conduct<T: TraceTable + Drop>(
    heap: Global,
    table: T,
    bound: T::Value,
    calls: Vec<Call<T::Value>>,
) -> Result<Vec<Answer<T::Value>>, ConductError>
    ensures { MatchResult result (λ answers. Conducted T.Value.Cost.kind (T.TraceTable.means table) bound calls.items answers.items) (λ e. NotConducted T.Value.Cost.kind bound e) }
{
    let judge = Judge::new(heap)?;
    let mut watch = Watch::open(judge, table, bound)?;
    let mut answers = Vec::new(heap);
    for call in calls {
        let answer = watch.carry_out(call);
        answers.push(answer)?;
    }
    Ok(answers)
}

impl<T: TraceTable> Watch<T> {
    // Carries out one call. A match and no closure, since a list of calls is data that its contract speaks of.
    pub fn carry_out(&mut self, call: Call<T::Value>) -> Answer<T::Value>
        ensures right { Right T.Value.Cost.kind (ledger_of T.TraceTable.means self.old) call result }
        ensures after { ledger_of T.TraceTable.means self.new ≡ step T.Value.Cost.kind (ledger_of T.TraceTable.means self.old) call }
    {
        match call {
            Call::Feed(event) => Answer::Change(self.feed(event)),
            Call::Pin { event, number } => Answer::Change(self.pin(event, number)),
            Call::Unpin(event) => Answer::Change(self.unpin(event)),
            Call::Bound(bound) => Answer::Change(self.set_bound(bound)),
            Call::Judge(mut sheet) => {
                let verdict = self.judge_sheet(&mut sheet);
                Answer::Judgement(verdict, sheet)
            }
        }
    }
}
