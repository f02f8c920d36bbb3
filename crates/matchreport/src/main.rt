// Reads a job from standard input, and writes its report, or the line of its first fault, to standard output. Ends with
// status 0 after a report and 1 after a fault line.
#![tactic(auto)]

ghost use Rattle.std.specs.Prelude.{◌≤◌, length, IfOk};

use answer::{Answer, answer_text};
use job::{MAX_LOG, MAX_TEXT};
use std::io;
use std::io::{Read, Write};
use std::process::ExitCode;

// Room for one byte more than a text may have, so that a longer one is seen to be too long.
const ROOM: usize = MAX_TEXT + 1;

fn main(rt: HostRuntime) -> anyhow::Result<ExitCode> {
    run(&rt)
}

// Writes the answer, as a whole and not piece by piece as `print!` would; the status says whether that is a report. Text and
// log have fixed memory, and only the lines of the answer are allocated.
fn run(rt: &HostRuntime) -> anyhow::Result<ExitCode> {
    let mut text = [0; ROOM];
    let mut log = [0; MAX_LOG];
    let count = fill(&mut rt.stdin(), &mut text)?;
    let (lines, status) = match answer_text(rt.alloc(), &text[0..count], &mut log)? {
        Answer::Report(lines) => (lines, ExitCode::SUCCESS),
        // the fault line says it all
        Answer::Fault(line) => (line, ExitCode::FAILURE),
    };
    rt.stdout().write_all(lines.as_bytes())?;
    Ok(status)
}

// Reads until the buffer is full or the input ends; how many bytes it then holds. Each read has all the room that is left,
// and one that fails is not tried again: `io::copy` and `read_to_end` would do both otherwise.
fn fill(input: &mut impl Read, buffer: &mut [u8]) -> io::Result<usize>
    ensures { IfOk result (λ n. n ≤ length buffer.old) }
{
    let mut held = 0;
    for _ in 0..u64::MAX {
        if held >= buffer.len() {
            break;
        }
        let end = buffer.len();
        let count = input.read(&mut buffer[held..end])?;
        if count == 0 {
            break;
        }
        held += count;
    }
    Ok(held)
}
