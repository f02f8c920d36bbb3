// Job texts: from the bytes of a text to the job that it tells, or to its first fault.
//
// What a text tells is the definition `read`; the laws above it say that every job reads back from each of its
// spellings and nothing else is accepted, that nothing after a fault can change it, and that the fault is the first.
#![tactic(auto)]

ghost use Rattle.std.specs.Prelude.{◌≡◌};
ghost use Rattle.job.specs.Reading.{read, events_read, written};
ghost use Rattle.job.specs.Laws.{ReadingLaws};
ghost use Rattle.job.specs.Answers.{told};

pub mod accepted;
pub mod expected;
pub mod fault;
pub mod reader;
pub mod tokens;

use accepted::Job;
use fault::{Cause, Fault};
use reader::Reader;
use tokens::{Token, Tokens};

// The most bytes of a text.
pub const MAX_TEXT: usize = 32_768;

// The largest number of a text.
pub const MAX_NUMBER: u32 = 65_535;

// The most numbers of the section `pins`.
pub const MAX_PIN_NUMBERS: u32 = 64;

// The most events of the section `log`.
pub const MAX_LOG: usize = 4_096;

// The most pins.
const MAX_PINS: usize = MAX_PIN_NUMBERS as usize / 2;

// The job that a text tells, its log at the front of the lent list, or the first fault. The events that are read before
// a fault stand in the lent list too, and nothing else of it changes.
pub fn read_job(text: &[u8], log: &mut [u32; MAX_LOG]) -> Result<Job, Fault>
    ensures answer { told log.new result ≡ read text.now }
    ensures log { log.new ≡ written (events_read text.now) log.old }
    ensures laws { ReadingLaws }
{
    if text.len() > MAX_TEXT {
        return Err(Cause::Limit.at(MAX_TEXT));
    }
    let mut tokens = Tokens::new(text);
    let mut reader = Reader::new();
    loop {
        match tokens.next_token()? {
            Token::End { place } => return reader.finish(place),
            token => reader.accept(token, log)?,
        }
    }
}
