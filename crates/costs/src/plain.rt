// Plain costs: whole numbers whose absolute value is at most the span limit.
ghost use Rattle.std.specs.Prelude.{◌≤◌, unsigned_abs};
ghost use Rattle.costs.specs.Kind.{limit};

pub mod cost;

#[derive(Clone, Copy, PartialEq, Eq, Debug)]
pub struct Plain {
    value: i64,
    ghost small: { unsigned_abs value ≤ limit },
}
