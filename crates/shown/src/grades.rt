// The grades of a table as they are printed.
ghost use Rattle.std.specs.Prelude.{Some as Has};
ghost use Rattle.shown.specs.Text.{square_text, row_text, above_text, grades_text};

use costs::plain::Plain;
use std::fmt;
use tables::TraceTable;
use tables::grade::Grade;

// A grade in a column of three places.
#[derive(Clone, Copy)]
struct Square(Grade<Plain>);

impl fmt::Display for Square {
    ghost output = { λ s. Has (square_text s.0) };

    fn fmt<W: fmt::Write>(&self, f: &mut fmt::Formatter<W>) -> fmt::Result {
        match self.0 {
            Grade::Closed => write!(f, "  -"),
            Grade::Open(cost) => {
                let cost = cost.value();
                write!(f, "{cost:>3}")
            }
        }
    }
}

// The grades of one event, a column for each number.
#[derive(Clone, Copy)]
pub struct Row<'a, T> {
    pub table: &'a T,
    pub event: u32,
}

impl<'a, T: TraceTable<Value = Plain>> fmt::Display for Row<'a, T> {
    ghost output = { λ row. Has (row_text (T.TraceTable.means row.table.now) row.event) };

    fn fmt<W: fmt::Write>(&self, f: &mut fmt::Formatter<W>) -> fmt::Result {
        let event = self.event;
        write!(f, "event {event}")?;
        for number in 1..=self.table.size() {
            write!(f, "{}", Square(self.table.pair(event, number)))?;
        }
        Ok(())
    }
}

// The grades of all events: a heading, the numbers above the columns, and a row for each event.
#[derive(Clone, Copy)]
pub struct Grades<'a, T>(pub &'a T);

impl<'a, T: TraceTable<Value = Plain>> fmt::Display for Grades<'a, T> {
    ghost output = { λ grades. Has (grades_text (T.TraceTable.means grades.0.now)) };

    fn fmt<W: fmt::Write>(&self, f: &mut fmt::Formatter<W>) -> fmt::Result {
        let table = self.0;
        let above = Above(table.size());
        write!(
            f,
            "grades of the window (a row for each event, a column for each number, - closed)\n{above}"
        )?;
        for event in 1..=table.size() {
            write!(f, "\n{}", Row { table, event })?;
        }
        Ok(())
    }
}

// The numbers above the columns, as many as the size says.
#[derive(Clone, Copy)]
struct Above(u32);

impl fmt::Display for Above {
    ghost output = { λ above. Has (above_text above.0) };

    fn fmt<W: fmt::Write>(&self, f: &mut fmt::Formatter<W>) -> fmt::Result {
        write!(f, "       ")?;
        for number in 1..=self.0 {
            write!(f, "{number:>3}")?;
        }
        Ok(())
    }
}
