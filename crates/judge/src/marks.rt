// Marks of a set of events.
ghost use Rattle.std.specs.Prelude.{◌≤◌, length};
ghost use Rattle.tables.specs.Limits.{max_size};
ghost use Rattle.judge.specs.Marking.{Written};

use crate::place::Row;

// The mark of each event 1 to size, at its place: 1 where it stands in the set (bit r - 1 for event r), 0 where not.
// Marks are numbers and not flags, since the rules lend the judge a list of numbers for them. The size is a plain number,
// since nothing else of the table is wanted.
pub(crate) fn write_marks(set: Row, size: usize, marks: &mut [u32])
    requires size { size ≤ max_size }
    requires room { size ≤ length marks.old }
    ensures { Written set size marks.old marks.new }
{
    for (event, mark) in marks[..size].iter_mut().enumerate() {
        *mark = (set >> event) & 1;
    }
}
