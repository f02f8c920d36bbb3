// The verdict: the least cost lies within the bound or over it, or no renumbering is allowed.
// It is no `Option` of a cost: the rules name these three verdicts.
#[derive(Clone, Copy)]
pub enum Verdict<C> {
    Within(C),
    Over(C),
    None,
}
