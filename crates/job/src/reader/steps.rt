// The reader's steps, one for each token.
ghost use Rattle.std.specs.Prelude.{◌≡◌, ℕ, ◌≤◌, List};
ghost use Rattle.std.specs.Str.{bytes_eq};
ghost use Rattle.tables.specs.Pins.{pin_answer};
ghost use Rattle.job.specs.Numerals.{numeral};
ghost use Rattle.job.specs.Content.{bounds_count, is_delta, with_bound, laid};
ghost use Rattle.job.specs.Words.{kind_named, title_word, coming};
ghost use Rattle.job.specs.States.{start};
ghost use Rattle.job.specs.Taking.{is_count, count_step, number_step, pin_step};
ghost use Rattle.job.specs.Steps.{word_step};
ghost use Rattle.job.specs.Reading.{finish};
ghost use Rattle.job.specs.Answers.{told, state_of, found, numbered, token_step, Goes, Writes};

use super::Reader;
use crate::accepted::{Job, Kind, Pin};
use crate::expected::{Expected, Section};
use crate::fault::{Cause, Fault};
use crate::tokens::Token;
use crate::tokens::numeral::Numeral;
use crate::{MAX_LOG, MAX_PIN_NUMBERS};
use arrayvec::ArrayVec;
use tables::pinning::Pinning;
use tables::refusal::Refusal;
use tables::{MAX_DELTA, MAX_PLACES, MAX_SIZE, is_within};

// The kind that a word names, its numbers still to come. Here and below words are cases and no `FromStr`: the reader decides
// by them what comes next, and what another word means is its to say.
#[tactic(auto, using(crate::proofs::Words::literals))]
fn kind_of(word: &str) -> Option<Kind>
    ensures { result ≡ kind_named word.now }
{
    match word {
        "mismatch" => Some(Kind::Mismatch { bound: 0 }),
        "difference" => Some(Kind::Difference { delta: 0, bound: 0 }),
        "mixed" => Some(Kind::Mixed {
            delta: 0,
            first: 0,
            second: 0,
        }),
        _ => None,
    }
}

// Whether a word is the title of a section.
#[tactic(auto, using(crate::proofs::Words::literals))]
fn is_title(section: Section, word: &str) -> bool
    ensures { result ≡ bytes_eq word.now (title_word section) }
{
    match (section, word) {
        (Section::Size, "size") => true,
        (Section::Bounds, "bounds") => true,
        (Section::Pins, "pins") => true,
        (Section::Trace, "trace") => true,
        (Section::Log, "log") => true,
        _ => false,
    }
}

// What is expected where so many numbers of a section are still to come.
fn next_of(section: Section, n: u32) -> Expected
    ensures { result ≡ coming section n }
{
    if n > 0 {
        return Expected::Number {
            section,
            after: n - 1,
        };
    }
    match section {
        Section::Size => Expected::Title(Section::Bounds),
        Section::Bounds => Expected::Title(Section::Pins),
        Section::Pins => Expected::Title(Section::Trace),
        Section::Trace => Expected::Title(Section::Log),
        Section::Log => Expected::End,
    }
}

// The number of a run of digits, or its fault.
fn number_at(run: Numeral<'_>, place: usize) -> Result<u32, Fault>
    ensures { found result ≡ numbered place (numeral run.entry.digits.now) }
{
    run.value().ok_or(Cause::Numeral.at(place))
}

// Whether a section may count so many numbers.
fn is_count_of(section: Section, kind: Kind, n: u32) -> bool
    ensures { result ≡ is_count section kind n }
{
    match section {
        Section::Size => n == 1,
        Section::Bounds => n == bound_count(kind),
        Section::Pins => n % 2 == 0 && n <= MAX_PIN_NUMBERS,
        Section::Trace => is_within(MAX_PLACES as u32, n),
        Section::Log => n <= MAX_LOG as u32,
    }
}

// How many numbers `bounds` has: a count of each kind, no code for it.
fn bound_count(kind: Kind) -> u32
    ensures { result ≡ bounds_count kind }
{
    match kind {
        Kind::Mismatch { .. } => 1,
        Kind::Difference { .. } => 2,
        Kind::Mixed { .. } => 3,
    }
}

// Whether the number of `bounds` that has so many after it is delta.
fn is_delta_of(kind: Kind, after: u32) -> bool
    ensures { result ≡ is_delta kind after }
{
    matches!(
        (kind, after),
        (Kind::Difference { .. }, 1) | (Kind::Mixed { .. }, 2)
    )
}

// The kind with the number of `bounds` that has so many after it.
fn bounded(kind: Kind, after: u32, n: u32) -> Kind
    ensures { result ≡ with_bound kind after n }
{
    match (kind, after) {
        (Kind::Mismatch { .. }, _) => Kind::Mismatch { bound: n },
        (Kind::Difference { bound, .. }, 1) => Kind::Difference { delta: n, bound },
        (Kind::Difference { delta, .. }, _) => Kind::Difference { delta, bound: n },
        (Kind::Mixed { first, second, .. }, 2) => Kind::Mixed {
            delta: n,
            first,
            second,
        },
        (Kind::Mixed { delta, second, .. }, 1) => Kind::Mixed {
            delta,
            first: n,
            second,
        },
        (Kind::Mixed { delta, first, .. }, _) => Kind::Mixed {
            delta,
            first,
            second: n,
        },
    }
}

// A number of a section: its value, where it stands, and how many of the section come after it.
#[derive(Clone, Copy)]
struct Number {
    value: u32,
    place: usize,
    after: u32,
}

// Each step requires the state that it takes. They differ from one step to the next, so no one type says them.
impl Reader {
    pub(crate) fn new() -> Reader
        ensures { (log : List ℕ) → state_of result log ≡ start }
    {
        Reader {
            expected: Expected::KindWord,
            job: Job {
                kind: Kind::Mismatch { bound: 0 },
                size: 0,
                pins: ArrayVec::new(),
                trace: ArrayVec::new(),
                events: 0,
            },
            pinned: Pinning::none(),
        }
    }

    // One token: what was expected is taken, or a fault is told and nothing changes. The state is matched with the token, as the
    // rules of reading put them together.
    pub(crate) fn accept(&mut self, token: Token<'_>, log: &mut [u32; MAX_LOG]) -> Result<(), Fault>
        ensures { Writes self.old self.new log.old log.new result (token_step self.old.expected token.entry) }
    {
        match (self.expected, token) {
            (Expected::KindWord, Token::Word { run, place }) => self.kind_word(run, place),
            (Expected::Title(section), Token::Word { run, place }) => {
                self.title(section, run, place)
            }
            (Expected::Count(section), Token::Digits { run, place }) => {
                let n = number_at(run, place)?;
                self.count(section, n, place)
            }
            (Expected::Number { section, after }, Token::Digits { run, place }) => {
                let value = number_at(run, place)?;
                let number = Number {
                    value,
                    place,
                    after,
                };
                self.number(section, number, log)
            }
            (
                Expected::PinNumber {
                    after,
                    event,
                    first,
                },
                Token::Digits { run, place },
            ) => {
                let n = number_at(run, place)?;
                self.pin_number(after, event, first, n)
            }
            _ => Err(Cause::Unexpected.at(token.place())),
        }
    }

    // The job, where it is whole, or the fault of a text that ends too soon.
    pub(crate) fn finish(self, place: usize) -> Result<Job, Fault>
        ensures { (log : List ℕ) → told log result ≡ finish place (state_of self log) }
    {
        match self.expected {
            Expected::End => Ok(self.job),
            _ => Err(Cause::Unexpected.at(place)),
        }
    }

    // The word of a kind.
    fn kind_word(&mut self, word: &str, place: usize) -> Result<(), Fault>
        requires { self.old.expected ≡ Expected.KindWord }
        ensures { Goes self.old self.new result (λ c. word_step Expected.KindWord c word.now place) }
    {
        let Some(kind) = kind_of(word) else {
            return Err(Cause::Unexpected.at(place));
        };
        self.job.kind = kind;
        self.expected = Expected::Title(Section::Size);
        Ok(())
    }

    // The title of a section.
    fn title(&mut self, section: Section, word: &str, place: usize) -> Result<(), Fault>
        requires { self.old.expected ≡ Expected.Title section }
        ensures { Goes self.old self.new result (λ c. word_step (Expected.Title section) c word.now place) }
    {
        if !is_title(section, word) {
            return Err(Cause::Unexpected.at(place));
        }
        self.expected = Expected::Count(section);
        Ok(())
    }

    // A number of a section. A match and no closure picks the step: the sections are five, and each step has its own promise.
    fn number(
        &mut self,
        section: Section,
        number: Number,
        log: &mut [u32; MAX_LOG],
    ) -> Result<(), Fault>
        requires { self.old.expected ≡ Expected.Number section number.after }
        ensures { Writes self.old self.new log.old log.new result (λ c. number_step section number.after c number.value number.place) }
    {
        match section {
            Section::Size => self.size_number(number),
            Section::Bounds => self.bound_number(number),
            Section::Pins => self.pin_event(number),
            Section::Trace => self.trace_number(number),
            Section::Log => self.log_event(number, log),
        }
    }

    // A count of a section.
    fn count(&mut self, section: Section, n: u32, place: usize) -> Result<(), Fault>
        requires { self.old.expected ≡ Expected.Count section }
        ensures { Goes self.old self.new result (λ c. count_step section c n place) }
    {
        if !is_count_of(section, self.job.kind, n) {
            return Err(match section {
                Section::Trace => Cause::Refused(Refusal::Trace).at(place),
                _ => Cause::Limit.at(place),
            });
        }
        self.expected = next_of(section, n);
        Ok(())
    }

    // The size.
    fn size_number(&mut self, number: Number) -> Result<(), Fault>
        requires { self.old.expected ≡ Expected.Number Section.Size number.after }
        ensures { Goes self.old self.new result (λ c. number_step Section.Size number.after c number.value number.place) }
    {
        if !is_within(MAX_SIZE, number.value) {
            return Err(Cause::Refused(Refusal::Size).at(number.place));
        }
        self.job.size = number.value;
        self.expected = next_of(Section::Size, number.after);
        Ok(())
    }

    // Delta, or a part of the bound.
    fn bound_number(&mut self, number: Number) -> Result<(), Fault>
        requires { self.old.expected ≡ Expected.Number Section.Bounds number.after }
        ensures { Goes self.old self.new result (λ c. number_step Section.Bounds number.after c number.value number.place) }
    {
        if is_delta_of(self.job.kind, number.after) && number.value > MAX_DELTA {
            return Err(Cause::Refused(Refusal::Delta).at(number.place));
        }
        self.job.kind = bounded(self.job.kind, number.after, number.value);
        self.expected = next_of(Section::Bounds, number.after);
        Ok(())
    }

    // The event of a pin, which is checked with its number.
    fn pin_event(&mut self, number: Number) -> Result<(), Fault>
        requires { self.old.expected ≡ Expected.Number Section.Pins number.after }
        ensures { Goes self.old self.new result (λ c. number_step Section.Pins number.after c number.value number.place) }
    {
        self.expected = Expected::PinNumber {
            after: number.after,
            event: number.value,
            first: number.place,
        };
        Ok(())
    }

    // The number of a pin whose event stands at the place `first`.
    fn pin_number(&mut self, after: u32, event: u32, first: usize, n: u32) -> Result<(), Fault>
        requires { self.old.expected ≡ Expected.PinNumber after event first }
        ensures { Goes self.old self.new result (λ c. pin_step after event first c n (pin_answer c.size (laid c.size c.pins) event n)) }
    {
        self.pinned
            .pin(self.job.size, event, n)
            .map_err(|refusal| Cause::Refused(refusal).at(first))?;
        self.job.pins.push(Pin { event, number: n });
        self.expected = next_of(Section::Pins, after.saturating_sub(1));
        Ok(())
    }

    // A number of the trace.
    fn trace_number(&mut self, number: Number) -> Result<(), Fault>
        requires { self.old.expected ≡ Expected.Number Section.Trace number.after }
        ensures { Goes self.old self.new result (λ c. number_step Section.Trace number.after c number.value number.place) }
    {
        if !is_within(self.job.size, number.value) {
            return Err(Cause::Refused(Refusal::Trace).at(number.place));
        }
        self.job.trace.push(number.value);
        self.expected = next_of(Section::Trace, number.after);
        Ok(())
    }

    // An event of the log, which goes to the lent list.
    fn log_event(&mut self, number: Number, log: &mut [u32; MAX_LOG]) -> Result<(), Fault>
        requires { self.old.expected ≡ Expected.Number Section.Log number.after }
        ensures { Writes self.old self.new log.old log.new result (λ c. number_step Section.Log number.after c number.value number.place) }
    {
        if !is_within(self.job.size, number.value) {
            return Err(Cause::Refused(Refusal::Event).at(number.place));
        }
        log[self.job.events] = number.value;
        self.job.events += 1;
        self.expected = next_of(Section::Log, number.after);
        Ok(())
    }
}
