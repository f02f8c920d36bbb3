// Worked cases of the watch, as one theorem.
ghost use Rattle.std.specs.Prelude.{◌≡◌};
ghost use Rattle.watch.specs.Cases.{WorkedCases};

// How many worked cases there are; its contract says that they hold.
pub fn worked_cases() -> u32
    ensures count { result ≡ 10 }
    ensures hold { WorkedCases }
{
    10
}
