// The five lists of a judge, owned: for a call that is kept, and for programs.
ghost use Rattle.std.specs.Prelude.{◌≡◌, replicate, IfOk};
ghost use Rattle.judge.specs.Sheets.{sheet_lists, blank};

use crate::WIDTH;
use costs::Cost;
use std::alloc::{AllocError, Global};

#[derive(Drop)]
pub struct Sheet<C> {
    pub numbers: Vec<u32>,
    pub event_prices: Vec<C>,
    pub number_prices: Vec<C>,
    pub marks: Vec<u32>,
    pub work: Vec<C>,
}

impl<C: Cost> Sheet<C> {
    // Lists of zeros, long enough for a table of the largest size. Fails only for want of memory.
    pub fn new(heap: Global) -> Result<Sheet<C>, AllocError>
        ensures { IfOk result (λ s. sheet_lists s ≡ blank C.Cost.kind) }
    {
        let zero = C::zero();
        let numbers = filled(heap, 0, WIDTH)?;
        let event_prices = filled(heap, zero, WIDTH)?;
        let number_prices = filled(heap, zero, WIDTH)?;
        let marks = filled(heap, 0, WIDTH)?;
        let work = filled(heap, zero, 8 * WIDTH)?;
        Ok(Sheet {
            numbers,
            event_prices,
            number_prices,
            marks,
            work,
        })
    }
}

// n times x.
pub(crate) fn filled<X: Copy>(heap: Global, x: X, n: usize) -> Result<Vec<X>, AllocError>
    ensures { IfOk result (λ v. v.items ≡ replicate n x) }
{
    let mut list = Vec::new(heap);
    list.resize(n, x)?;
    Ok(list)
}
