// Why a call is refused. Each case has a number of its own, which is all that a refused call answers.
ghost use Rattle.std.specs.Prelude.{◌≡◌};
ghost use Rattle.tables.specs.Refusals.{refusal_number};

#[derive(Clone, Copy, PartialEq, Eq, Debug)]
pub enum Refusal {
    // 5: an event is 0 or above the size
    Event = 5,
    // 6: the size is 0 or above its limit
    Size,
    // 7: the trace has no place or too many, or a number outside 1 to the size
    Trace,
    // 8: delta is above its limit
    Delta,
    // 9: a bound is below zero or its span is too large
    Bound,
    // 10: the event or the number to pin is outside 1 to the size
    Outside,
    // 11: the event is pinned, to any number
    EventPinned,
    // 12: another event is pinned to the number
    NumberTaken,
    // 13: the event is not pinned
    NotPinned,
    // 14: the window holds fewer events than the trace has places
    WindowShort,
    // 15: a list handed in is too short
    ListShort,
    // 16: the position is 0 or past the end of the log
    Position,
}

impl Refusal {
    pub fn number(self) -> u8
        ensures { result ≡ refusal_number self }
    {
        self as u8
    }
}
