// What prices add up to.
ghost use Rattle.std.specs.Prelude.{◌≡◌, fold, take};

use costs::Cost;

// What the first prices of a list add up to, as many as the size says.
pub fn total<C: Cost>(prices: &[C], size: usize) -> C
    ensures { result ≡ fold C.Cost.kind.plus C.Cost.kind.zero (take size prices.now) }
{
    prices
        .iter()
        .take(size)
        .fold(C::zero(), |sum, price| sum.plus(*price))
}
