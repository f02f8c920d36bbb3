// What a table says of the pair of an event and a number: closed, or open at a cost. This is no `Option`, since the rules
// name both answers, and code takes them apart by these names (`let Grade::Open(cost) = .. else`).
#[derive(Clone, Copy, PartialEq, Eq, Debug)]
pub enum Grade<C> {
    Closed,
    Open(C),
}
