// What is told of a renumbering: its cost, the prices of its events, and its numbers. Place r - 1 of a list is that of event r,
// and place c - 1 of a list of prices of numbers is that of number c.
// The lists are the caller's: a function that writes one requires its room and says what stands behind, and no type can say
// either of a list that is lent.
ghost use Rattle.std.specs.Prelude.{◌≡◌, ℕ, ◌≤◌, true, length, take, drop, is_some, Some, None};
ghost use Rattle.tables.specs.Limits.{max_size};
ghost use Rattle.tables.specs.Table.{Within};
ghost use Rattle.judge.specs.Allowed.{is_open};
ghost use Rattle.judge.specs.Grades.{renumbering_grade, event_price};
ghost use Rattle.judge.specs.Settling.{graded};
ghost use Rattle.judge.specs.Rows.{listed};

use crate::WIDTH;
use crate::grading::Pairs;
use costs::Cost;
use tables::grade::Grade;

// What a renumbering costs, place r - 1 of `numbers` being the number of event r: the sum of its pairs, or closed where one of them is.
pub(crate) fn renumbering_cost<C: Cost>(pairs: &Pairs<C>, numbers: &[u32]) -> Grade<C>
    requires many { pairs.now.size ≤ length numbers.now }
    requires numbers { (r : ℕ) → Within pairs.now.size r → Within pairs.now.size (listed numbers.now 0 r) }
    ensures { result ≡ renumbering_grade C.Cost.kind (graded pairs.now) (take pairs.now.size numbers.now) }
{
    let mut sum = C::zero();
    // By place, from the last event to the first: over `iter().enumerate().rev()` the proof did not close (tried), since it
    // knows nothing of a `rev` behind an `enumerate`.
    for event in (0..pairs.size()).rev() {
        let grade = pairs.grade(event as u32 + 1, numbers[event] as usize - 1);
        let Grade::Open(cost) = grade else {
            return Grade::Closed;
        };
        sum = cost.plus(sum);
    }
    Grade::Open(sum)
}

// The price of each event: what its pair costs less the price of its number.
pub(crate) fn write_event_prices<C: Cost>(
    pairs: &Pairs<C>,
    numbers: &[u32],
    number_prices: &[C],
    event_prices: &mut [C],
)
    requires many { (pairs.now.size ≤ length numbers.now) × ((pairs.now.size ≤ length number_prices.now) × (pairs.now.size ≤ length event_prices.old)) }
    requires numbers { (r : ℕ) → Within pairs.now.size r → Within pairs.now.size (listed numbers.now 0 r) }
    requires allowed { (r : ℕ) → Within pairs.now.size r → is_open (graded pairs.now r (listed numbers.now 0 r)) ≡ true }
    ensures prices { (r : ℕ) → Within pairs.now.size r → listed event_prices.new C.Cost.kind.zero r ≡ event_price C.Cost.kind (graded pairs.now) numbers.now (listed number_prices.now C.Cost.kind.zero) r }
    ensures rest { drop pairs.now.size event_prices.new ≡ drop pairs.now.size event_prices.old }
{
    for (event, price) in event_prices[..pairs.size()].iter_mut().enumerate() {
        let place = numbers[event] as usize - 1;
        let grade = pairs.grade(event as u32 + 1, place);
        let Grade::Open(cost) = grade else {
            unreachable()
        };
        *price = cost.minus(number_prices[place]);
    }
}

// Writes the numbers of all events. By place, since a `zip` with what is written leaves it unknown to the proof (tried). The
// size is a plain number here, below the limit by the table's law, since nothing else of the pairs is wanted.
pub(crate) fn write_numbers(seats: &[Option<u32>; WIDTH], size: usize, numbers: &mut [u32])
    requires size { (size ≤ max_size) × (size ≤ length numbers.old) }
    requires seated { (r : ℕ) → Within size r → is_some (listed seats.now None r) ≡ true }
    ensures numbers { (r : ℕ) → Within size r → Some (listed numbers.new 0 r) ≡ listed seats.now None r }
    ensures rest { drop size numbers.new ≡ drop size numbers.old }
{
    for (event, number) in numbers[..size].iter_mut().enumerate() {
        let Some(seat) = seats[event] else {
            unreachable()
        };
        *number = seat;
    }
}
