// The worked window: its trace and its events, and what is judged and priced of it.
ghost use Rattle.std.specs.Prelude.{◌≡◌, [], IfOk, is_ok, Some as Has};
ghost use Rattle.costs.specs.Pair.{both, pair_kind};
ghost use Rattle.costs.specs.Plain.{plain_of, plain_kind};
ghost use Rattle.tables.specs.Pricing.{mismatch, difference, mixed};
ghost use Rattle.tables.specs.Summing.{summing};
ghost use Rattle.tables.specs.Summed.{summed_table};
ghost use Rattle.tables.specs.Table.{pair_at};
ghost use Rattle.judge.specs.Renumbering.{pairs};
ghost use Rattle.shown.specs.Text.{priced_text, kinds_text};
ghost use Rattle.shown.specs.Worked.{JudgedOf};

use crate::parts::Parts;
use crate::verdicts::Judged;
use anyhow::anyhow;
use costs::Cost;
use costs::pair::Pair;
use costs::plain::Plain;
use judge::judging::Judge;
use judge::sheet::Sheet;
use std::alloc::Global;
use std::fmt;
use tables::TraceTable;
use tables::grade::Grade;
use tables::pricing::{Difference, Mismatch, Mixed, Pricing};
use tables::summed::Summed;

pub const SIZE: u32 = 5;

pub const TRACE: [u32; 10] = [2, 2, 1, 3, 4, 3, 4, 5, 2, 2];

pub const EVENTS: [u32; 10] = [3, 5, 3, 4, 1, 2, 1, 2, 5, 4];

// A renumbering: the number of event 1 first.
pub const NUMBERS: [u32; 5] = [5, 4, 1, 3, 2];

// The table of that pricing over the worked trace, with an empty window. Refused where the pricing can't be used.
pub fn worked_table<P: Pricing + Drop>(pricing: P) -> anyhow::Result<Summed<P>>
    ensures variant { is_ok result ≡ P.Pricing.usable pricing }
    ensures table { IfOk result (λ t. summed_table P.Value.Cost.kind P.Pricing.prices t ≡ summing P.Value.Cost.kind (P.Pricing.prices pricing) SIZE TRACE []) }
{
    let Ok(table) = Summed::new(pricing, SIZE, &TRACE) else {
        return Err(anyhow!("the table is refused"));
    };
    Ok(table)
}

// The same with the window filled.
fn full_table<P: Pricing + Drop>(pricing: P) -> anyhow::Result<Summed<P>>
    ensures { IfOk result (λ t. summed_table P.Value.Cost.kind P.Pricing.prices t ≡ summing P.Value.Cost.kind (P.Pricing.prices pricing) SIZE TRACE EVENTS) }
{
    let mut table = worked_table(pricing)?;
    for event in EVENTS {
        let _ = table.take(event);
    }
    Ok(table)
}

// The worked window judged at a table of that pricing. Fails only where the pricing can't be used, and for want of
// memory.
pub fn judge_window<P: Pricing + Drop>(
    heap: Global,
    pricing: P,
    bound: P::Value,
) -> anyhow::Result<Judged<P::Value>>
    ensures { IfOk result (λ j. JudgedOf P.Value.Cost.kind (summing P.Value.Cost.kind (P.Pricing.prices pricing) SIZE TRACE EVENTS) bound j) }
{
    let table = full_table(pricing)?;
    let mut judge = Judge::new(heap)?;
    let mut sheet = Sheet::new(heap)?;
    let answer = judge.judge_sheet(&table, &bound, &mut sheet);
    Ok(Judged {
        answer,
        size: SIZE as usize,
        sheet,
    })
}

// The worked window judged in each of the three kinds of table.
#[derive(Drop)]
pub struct Kinds {
    pub difference: Judged<Plain>,
    pub mismatch: Judged<Plain>,
    pub mixed: Judged<Pair<Plain, Plain>>,
}

// Fails only for want of memory.
pub fn judge_kinds(heap: Global) -> anyhow::Result<Kinds>
    ensures difference { IfOk result (λ kinds. JudgedOf plain_kind (summing plain_kind (difference 0) SIZE TRACE EVENTS) (plain_of 6) kinds.difference) }
    ensures mismatch { IfOk result (λ kinds. JudgedOf plain_kind (summing plain_kind mismatch SIZE TRACE EVENTS) (plain_of 3) kinds.mismatch) }
    ensures mixed { IfOk result (λ kinds. JudgedOf (pair_kind plain_kind plain_kind) (summing (pair_kind plain_kind plain_kind) (mixed 4) SIZE TRACE EVENTS) (both (plain_of 4) (plain_of 0)) kinds.mixed) }
{
    let difference = judge_window(heap, Difference { delta: 0 }, Plain::from(6))?;
    let mismatch = judge_window(heap, Mismatch, Plain::from(3))?;
    let bound = Pair {
        first: Plain::from(4),
        second: Plain::from(0),
    };
    let mixed = judge_window(heap, Mixed { delta: 4 }, bound)?;
    Ok(Kinds {
        difference,
        mismatch,
        mixed,
    })
}

impl fmt::Display for Kinds {
    ghost output = { λ kinds. Has (kinds_text kinds) };

    fn fmt<W: fmt::Write>(&self, f: &mut fmt::Formatter<W>) -> fmt::Result {
        let Kinds {
            difference,
            mismatch,
            mixed,
        } = self;
        write!(
            f,
            "difference, delta 0, bound 6:{difference}\nmismatch, bound 3:{mismatch}\nmixed, delta 4, bound (4, 0):{mixed}"
        )
    }
}

// What a renumbering costs at a table: pair by pair up to a closed one, then together.
#[derive(Clone, Copy)]
pub struct Priced<'a, T> {
    pub table: &'a T,
    pub numbers: [u32; 5],
}

impl<'a, T: TraceTable<Value = Plain>> fmt::Display for Priced<'a, T> {
    ghost output = { λ priced. Has (priced_text (pair_at (T.TraceTable.means priced.table.now)) (plain_of 0) (pairs priced.numbers)) };

    fn fmt<W: fmt::Write>(&self, f: &mut fmt::Formatter<W>) -> fmt::Result {
        let mut total = Plain::zero();
        for (place, number) in self.numbers.iter().enumerate() {
            let event = place as u32 + 1;
            let Grade::Open(cost) = self.table.pair(event, *number) else {
                return write!(f, "event {event} as {number}: closed");
            };
            write!(f, "event {event} as {number}: {cost}\n")?;
            total = total.plus(cost);
        }
        write!(f, "cost {total}")
    }
}

#[cfg(test)]
mod tests {
    use super::*;
    use std::test::Fail;

    // The judgement is made, and printed as in the walkthrough.
    #[test]
    fn judges_the_window(rt: HostRuntime) -> Result<(), Fail> {
        let Ok(judged) = judge_window(rt.alloc(), Difference { delta: 1 }, Plain::from(6)) else {
            return Err(Fail::new("the window is not judged"));
        };
        let text = format!(in rt.alloc(); "{judged}")?;
        assert_eq!(rt;
            text.as_str(),
            " within 6\n  numbers 5 4 1 3 2\n  event prices 2 4 1 1 0\n  number prices 0 0 0 -2 0\n  all prices add up to 6"
        );
        Ok(())
    }

    #[test]
    fn judges_in_each_kind(rt: HostRuntime) -> Result<(), Fail> {
        let Ok(kinds) = judge_kinds(rt.alloc()) else {
            return Err(Fail::new("a kind is not judged"));
        };
        let text = format!(in rt.alloc(); "{}", kinds.difference)?;
        assert_eq!(rt; text.as_str(), " none\n  marked events 2");
        Ok(())
    }
}
