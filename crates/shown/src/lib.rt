// What the programs that show the judge at work share: costs, lists, answers and grades as they are printed, and the
// worked window.
#![tactic(auto)]

pub mod grades;
pub mod lists;
pub mod parts;
pub mod sums;
pub mod trials;
pub mod verdicts;
pub mod worked;
