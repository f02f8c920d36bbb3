// A whole list of calls on one watch over the worked window, each printed with its answer.
ghost use Rattle.std.specs.Prelude.{◌≡◌, [], IfOk};
ghost use Rattle.watchtour.specs.Steps.{StandsFor, AllStand};

use anyhow::anyhow;
use costs::plain::Plain;
use judge::sheet::Sheet;
use shown::verdicts::{Judged, Told};
use shown::worked::{SIZE, TRACE, worked_table};
use std::alloc::{AllocError, Global};
use std::fmt;
use tables::pricing::Difference;
use watch::call::{Answer, Call};
use watch::conduct::conduct;

// A call to come. It is no `Call`, which owns the lists of a judge and cannot stand in a constant. A judge with a short list
// has no room for marks.
#[derive(Clone, Copy)]
enum Step {
    Feed(u32),
    Pin { event: u32, number: u32 },
    Unpin(u32),
    Bound(u32),
    Judge,
    JudgeShort,
}

const STEPS: [Step; 18] = [
    Step::Feed(3),
    Step::Feed(5),
    Step::Feed(3),
    Step::Feed(4),
    Step::Feed(1),
    Step::Feed(2),
    Step::Feed(1),
    Step::Feed(2),
    Step::Feed(5),
    Step::Feed(4),
    Step::Feed(6),
    Step::Pin {
        event: 1,
        number: 4,
    },
    Step::Judge,
    Step::Unpin(1),
    Step::Judge,
    Step::Bound(5),
    Step::Judge,
    Step::JudgeShort,
];

// Conducts the steps on a watch with bound 6, and prints them with their answers.
pub fn conduct_steps(rt: &HostRuntime) -> anyhow::Result<()> {
    println!(rt; "calls on one watch: difference, delta 1, size {SIZE}, trace {TRACE:?}, bound 6")?;
    let table = worked_table(Difference { delta: 1 })?;
    let calls = make_calls(rt.alloc(), &STEPS)?;
    let Ok(answers) = conduct(rt.alloc(), table, Plain::from(6), calls) else {
        return Err(anyhow!("the calls are not carried out"));
    };
    print_answers(rt, answers)
}

fn print_answers(rt: &impl Print, answers: Vec<Answer<Plain>>) -> anyhow::Result<()> {
    for (step, answer) in STEPS.iter().zip(answers) {
        print!(rt; "{step}:")?;
        print_answer(rt, answer)?;
    }
    println!(rt; "")?;
    Ok(())
}

// The calls that the steps stand for.
fn make_calls(heap: Global, steps: &[Step]) -> Result<Vec<Call<Plain>>, AllocError>
    ensures { IfOk result (λ calls. AllStand steps.now calls.items) }
{
    let mut calls = Vec::new(heap);
    for step in steps.iter() {
        let call = make_call(heap, *step)?;
        calls.push(call)?;
    }
    Ok(calls)
}

fn make_call(heap: Global, step: Step) -> Result<Call<Plain>, AllocError>
    ensures { IfOk result (λ call. StandsFor step call) }
{
    match step {
        Step::Feed(event) => Ok(Call::Feed(event)),
        Step::Pin { event, number } => Ok(Call::Pin { event, number }),
        Step::Unpin(event) => Ok(Call::Unpin(event)),
        Step::Bound(bound) => Ok(Call::Bound(Plain::from(bound))),
        Step::Judge => Ok(Call::Judge(Sheet::new(heap)?)),
        Step::JudgeShort => Ok(Call::Judge(short_sheet(heap)?)),
    }
}

// Lists with no room for marks.
fn short_sheet(heap: Global) -> Result<Sheet<Plain>, AllocError>
    ensures { IfOk result (λ sheet. sheet.marks.items ≡ []) }
{
    let mut sheet = Sheet::new(heap)?;
    sheet.marks = Vec::new(heap);
    Ok(sheet)
}

impl fmt::Display for Step {
    fn fmt<W: fmt::Write>(&self, f: &mut fmt::Formatter<W>) -> fmt::Result {
        match *self {
            Step::Feed(event) => write!(f, "feed {event}"),
            Step::Pin { event, number } => write!(f, "pin {event} to {number}"),
            Step::Unpin(event) => write!(f, "unpin {event}"),
            Step::Bound(bound) => write!(f, "bound {bound}"),
            Step::Judge => write!(f, "judge"),
            Step::JudgeShort => write!(f, "judge with no room for marks"),
        }
    }
}

fn print_answer(rt: &impl Print, answer: Answer<Plain>) -> anyhow::Result<()> {
    match answer {
        Answer::Change(told) => println!(rt; "{}", Told(told))?,
        Answer::Judgement(told, sheet) => {
            let judged = Judged {
                answer: told,
                size: SIZE as usize,
                sheet,
            };
            println!(rt; "{judged}")?
        }
    }
    Ok(())
}
