// The calls of a watch as values, and what they answer.
use judge::sheet::Sheet;
use judge::verdict::Verdict;
use tables::refusal::Refusal;

// A call. A judge owns the five lists that it is handed.
#[derive(Drop)]
pub enum Call<C> {
    Feed(u32),
    Pin { event: u32, number: u32 },
    Unpin(u32),
    Bound(C),
    Judge(Sheet<C>),
}

// What a call answers: a judge also hands its lists back, a refused one too.
#[derive(Drop)]
pub enum Answer<C> {
    Change(Result<(), Refusal>),
    Judgement(Result<Verdict<C>, Refusal>, Sheet<C>),
}
