// The tokens of a text: its runs, borrowed from it.
ghost use Rattle.std.specs.Prelude.{◌≡◌, ◌<◌, ◌≤◌, length, not, IfSome, IsAscii};
ghost use Rattle.std.specs.List.{prefix_len, position};
ghost use Rattle.job.specs.Runs.{blank, of_sort, sort_of};

use crate::fault::{Cause, Fault};
use numeral::Numeral;

pub mod numeral;

// The sort of byte that a run is made of.
#[derive(Clone, Copy)]
enum Sort {
    Letter,
    Digit,
}

#[derive(Clone, Copy)]
pub enum Token<'a> {
    Word { run: &'a str, place: usize },
    Digits { run: Numeral<'a>, place: usize },
    End { place: usize },
}

#[derive(Drop)]
pub struct Tokens<'a> {
    text: &'a [u8],
    // where the next run is looked for
    place: usize,
    ghost within: { place ≤ length text.now },
}

impl Sort {
    // The sort of a run, by its first byte.
    fn of(run: &[u8]) -> Sort
        ensures { result ≡ sort_of run.now }
    {
        match run {
            [first, ..] if first.is_ascii_lowercase() => Sort::Letter,
            _ => Sort::Digit,
        }
    }

    fn has(self, b: u8) -> bool
        ensures { result ≡ of_sort self b }
    {
        match self {
            Sort::Letter => b.is_ascii_lowercase(),
            Sort::Digit => b.is_ascii_digit(),
        }
    }
}

fn is_blank(b: u8) -> bool
    ensures { result ≡ blank b }
{
    b == b' ' || b == b'\n'
}

// How many blanks stand in front. `run_len` differs in the test alone; one function for both would take the test as a
// flag or a closure, and its contract would have to speak of it.
fn blanks(rest: &[u8]) -> usize
    ensures value { result ≡ prefix_len blank rest.now }
    ensures within { result ≤ length rest.now }
{
    rest.iter().take_while(|b| is_blank(**b)).count()
}

// How many bytes stand before the first blank.
fn run_len(rest: &[u8]) -> usize
    ensures value { result ≡ prefix_len (λ b. not (blank b)) rest.now }
    ensures within { result ≤ length rest.now }
{
    rest.iter().take_while(|b| !is_blank(**b)).count()
}

// How many bytes stand before the first one that is not of the sort, if there is one.
fn spoiled(run: &[u8], sort: Sort) -> Option<usize>
    ensures value { result ≡ position (λ b. not (of_sort sort b)) run.now }
    ensures within { IfSome result (λ n. n < length run.now) }
{
    run.iter().position(|b| !sort.has(*b))
}

// Bytes below 128 as text.
fn ascii(run: &[u8]) -> &str
    requires { IsAscii run.now }
    ensures { result.now ≡ run.now }
{
    std::str::from_utf8(run).unwrap()
}

impl<'a> Token<'a> {
    ghost use Rattle.std.specs.Prelude.{◌≡◌};
    ghost use Rattle.job.specs.Answers.{token_place};

    pub(crate) fn place(self) -> usize
        ensures { result ≡ token_place self.entry }
    {
        match self {
            Token::Word { place, .. } | Token::Digits { place, .. } | Token::End { place } => place,
        }
    }
}

impl<'a> Tokens<'a> {
    ghost use Rattle.std.specs.Prelude.{◌≡◌, ◌+◌, ◌<◌, [], ◌∷◌, length, IfNone, IfSome, OnSome};
    ghost use Rattle.job.specs.Answers.{Next};
    ghost use Rattle.job.specs.Runs.{run_at, runs_at};

    pub(crate) fn new(text: &'a [u8]) -> Tokens<'a>
        ensures text { result.text ≡ text.entry }
        ensures place { result.place ≡ 0 }
    {
        Tokens { text, place: 0 }
    }

    // Where the next run begins and its bytes, none where only blanks are left.
    fn next_run(&mut self) -> Option<(usize, &'a [u8])>
        ensures none { IfNone result ((runs_at self.old.place self.old.text.now ≡ []) × (self.new.place ≡ length self.old.text.now)) }
        ensures some { IfSome result (λ r. runs_at self.old.place self.old.text.now ≡ run_at r.0 r.1.now ∷ runs_at self.new.place self.old.text.now) }
        ensures bytes { IfSome result (λ r. (0 < length r.1.now) × (self.new.place ≡ r.0 + length r.1.now)) }
        ensures on { OnSome result (self.old.place < self.new.place) }
        ensures text { self.new.text ≡ self.old.text }
    {
        let text = self.text;
        let place = self.place + blanks(&text[self.place..]);
        let rest = &text[place..];
        let run = &rest[..run_len(rest)];
        self.place = place + run.len();
        if run.is_empty() {
            None
        } else {
            Some((place, run))
        }
    }

    // The next run as a token, or the fault of a byte that spoils it.
    pub(crate) fn next_token(&mut self) -> Result<Token<'a>, Fault>
        ensures next { Next self.old.text.now self.old.place self.new.place result }
        ensures text { self.new.text ≡ self.old.text }
    {
        let Some((place, run)) = self.next_run() else {
            return Ok(Token::End { place: self.place });
        };
        let sort = Sort::of(run);
        if let Some(n) = spoiled(run, sort) {
            return Err(Cause::Byte.at(place + n));
        }
        match sort {
            Sort::Letter => Ok(Token::Word {
                run: ascii(run),
                place,
            }),
            Sort::Digit => Ok(Token::Digits {
                run: Numeral { digits: run },
                place,
            }),
        }
    }
}
