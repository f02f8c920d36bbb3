// Calls on the pins of a table that both walks make, each printed with its answer.
ghost use Rattle.std.specs.Prelude.{◌≡◌, OnOk};
ghost use Rattle.tables.specs.Pins.{pins_in, after_pin, after_unpin};

use crate::grades::Row;
use crate::verdicts::Told;
use crate::worked::{SIZE, TRACE};
use costs::plain::Plain;
use tables::TraceTable;
use tables::pins::Pins;
use tables::pricing::Difference;
use tables::summed::Summed;

// Pins event 1 to number 4, shows what that closes, and takes the pin off again.
pub fn try_pins<T: TraceTable<Value = Plain>>(
    rt: &impl Print,
    pins: &mut Pins<T>,
) -> anyhow::Result<()>
    ensures table { pins.new.table ≡ pins.old.table }
    ensures after { OnOk result (pins_in pins.new.pins ≡ after_unpin (T.TraceTable.means pins.old.table).size (after_pin (T.TraceTable.means pins.old.table).size (pins_in pins.old.pins) 1 4) 1) }
{
    println!(rt; "pin event 1 to number 4:{}", Told(pins.pin(1, 4)))?;
    show_row(rt, pins)?;
    println!(rt; "unpin event 1:{}", Told(pins.unpin(1)))?;
    show_row(rt, pins)
}

// The grades of event 1.
fn show_row<T: TraceTable<Value = Plain>>(rt: &impl Print, table: &T) -> anyhow::Result<()> {
    println!(rt; "{}", Row { table, event: 1 })?;
    Ok(())
}

// Calls that are refused, each with its number: a pin to a number above the size, an unpin of an event that has no
// pin, and a table whose delta is too large.
pub fn try_refusals<T: TraceTable>(rt: &impl Print, pins: &mut Pins<T>) -> anyhow::Result<()>
    ensures table { pins.new.table ≡ pins.old.table }
    ensures after { OnOk result (pins_in pins.new.pins ≡ after_unpin (T.TraceTable.means pins.old.table).size (after_pin (T.TraceTable.means pins.old.table).size (pins_in pins.old.pins) 1 9) 1) }
{
    println!(rt; "pin event 1 to number 9:{}", Told(pins.pin(1, 9)))?;
    println!(rt; "unpin event 1:{}", Told(pins.unpin(1)))?;
    let made = Summed::new(Difference { delta: 32 }, SIZE, &TRACE).map(|_| ());
    println!(rt; "a table with delta 32:{}", Told(made))?;
    Ok(())
}
