// The judge: the least cost of renumbering a window of log events, for any trace table over any cost kind.
//
// `judging` has the public face, `Judge::judge`. Below it: `grading` reads the table, `matching` settles whether a
// renumbering exists (no costs in it), over the bit rows of `place`, `settling` finds a least one with its prices,
// `reporting` and `marks` write the lists.
#![tactic(auto)]

mod grading;
pub mod judging;
mod marks;
mod matching;
mod place;
mod reporting;
mod settling;
pub mod sheet;
pub mod verdict;

use tables::MAX_SIZE;

// How many events and numbers there can be.
const WIDTH: usize = MAX_SIZE as usize;
