// What a reader expects next.

#[derive(Clone, Copy)]
pub enum Section {
    Size,
    Bounds,
    Pins,
    Trace,
    Log,
}

#[derive(Clone, Copy)]
pub enum Expected {
    KindWord,
    Title(Section),
    Count(Section),
    // a number of a section, and how many come after it
    Number {
        section: Section,
        after: u32,
    },
    // the second number of a pin, its event and where that stands; the number itself is one of those that come
    PinNumber {
        after: u32,
        event: u32,
        first: usize,
    },
    End,
}
