// The grades of all pairs of a table, read once, and one bit row of open numbers for each event.
ghost use Rattle.std.specs.Prelude.{◌≡◌, ℕ, suc, ◌^◌, ◌<◌, ◌≤◌, length, slice_index};
ghost use Rattle.tables.specs.Limits.{max_size};
ghost use Rattle.tables.specs.Table.{Within, pair_at};
ghost use Rattle.tables.specs.declared.grade.Grade.TheVariants.{Closed};
ghost use Rattle.judge.specs.Allowed.{is_open};
ghost use Rattle.judge.specs.BitRows.{stands_in, open_in};
ghost use Rattle.judge.specs.Grades.{Grid};
ghost use Rattle.judge.specs.Rows.{listed};

use crate::WIDTH;
use costs::Cost;
use std::alloc::AllocError;
use tables::TraceTable;
use tables::grade::Grade;

// The grades of all pairs: that of event r and number c at place (r - 1) * size + (c - 1) of the list.
#[derive(Copy)]
pub(crate) struct Pairs<'a, C> {
    grades: &'a [Grade<C>],
    size: usize,
    ghost grid: { Grid grades.now size },
}

// By hand, since a generic struct with a ghost field derives no Clone, which Copy asks for.
impl<'a, C: Copy> Clone for Pairs<'a, C> {
    fn clone(&self) -> Result<Self, AllocError> {
        Ok(*self)
    }
}

// An event or a place has to lie within the size of these pairs, which no type of its own can name.
impl<'a, C: Cost> Pairs<'a, C> {
    ghost use Rattle.judge.specs.Settling.{graded};

    // Reads the grades of all pairs of a table into a list.
    #[tactic(auto, using(crate::proofs::GradedPairs::graded_front))]
    pub(crate) fn read<T: TraceTable<Value = C>>(
        table: &T,
        grades: &'a mut [Grade<C>],
    ) -> Pairs<'a, C>
        requires { Grid grades.old (T.TraceTable.means table.now).size }
        ensures size { result.size ≡ (T.TraceTable.means table.now).size }
        ensures graded { (r c : ℕ) → Within result.size r → Within result.size c → graded result r c ≡ pair_at (T.TraceTable.means table.now) r c }
    {
        let size = table.size() as usize;
        table.grid(&mut grades[0..size * size]);
        Pairs { grades, size }
    }

    // How many events and numbers there are.
    pub(crate) fn size(&self) -> usize
        ensures { result ≡ self.now.size }
    {
        self.size
    }

    // The grades of the event at a place, number after number.
    fn row_at(&self, place: usize) -> &'a [Grade<C>]
        requires { place < self.now.size }
        ensures long { length result.now ≡ self.now.size }
        ensures grades { (c : ℕ) → Within self.now.size c → listed result.now Closed c ≡ graded self.now (suc place) c }
    {
        let start = place * self.size;
        &self.grades[start..start + self.size]
    }

    // The grades of an event, number after number.
    pub(crate) fn row(&self, event: u32) -> &'a [Grade<C>]
        requires { Within self.now.size event }
        ensures long { length result.now ≡ self.now.size }
        ensures grades { (c : ℕ) → Within self.now.size c → listed result.now Closed c ≡ graded self.now event c }
    {
        self.row_at(event as usize - 1)
    }

    // The grade of an event with the number at a place.
    pub(crate) fn grade(&self, event: u32, place: usize) -> Grade<C>
        requires event { Within self.now.size event }
        requires place { place < self.now.size }
        ensures { result ≡ graded self.now event (suc place) }
    {
        self.row(event)[place]
    }

    // The open numbers of each event: bit c - 1 of row r - 1 for number c and event r. An array of the largest size, whose
    // rows past the size nobody asks for.
    pub(crate) fn open_rows(&self) -> [u32; WIDTH]
        ensures rows { (r c : ℕ) → Within self.now.size r → Within self.now.size c → open_in result r c ≡ is_open (graded self.now r c) }
        ensures small { (r : ℕ) → r < self.now.size → slice_index result r < 2 ^ self.now.size }
    {
        let mut rows = [0; WIDTH];
        for (place, row) in rows[..self.size].iter_mut().enumerate() {
            *row = open_row(self.row_at(place));
        }
        rows
    }
}

// The open numbers of a row of grades, bit c - 1 for number c.
fn open_row<C: Copy>(row: &[Grade<C>]) -> u32
    requires { length row.now ≤ max_size }
    ensures bits { (c : ℕ) → Within (length row.now) c → stands_in result c ≡ is_open (listed row.now Closed c) }
    ensures small { result < 2 ^ length row.now }
{
    let mut bits = 0;
    for (place, grade) in row.iter().enumerate() {
        let Grade::Open(_cost) = grade else {
            continue;
        };
        bits |= 1 << place;
    }
    bits
}
