// A linear congruential generator: from one first state the same numbers at every run.
#![tactic(auto)]

ghost use Rattle.std.specs.Prelude.{◌≡◌, ℕ, IfOk, is_ok, vec_len, if◌then◌else◌};
ghost use Rattle.random.specs.Drawing.{next, number_below, number_up_to, state_after, numbers};

use std::alloc::{AllocError, Global};
use std::marker::Model;

// Contracts see it as the number that is its state.
#[derive(Drop)]
pub struct Random {
    state: u64,
}

impl Model for Random {
    ghost Value = { ℕ };

    ghost view = { λ r. r.state };
}

impl Random {
    // The generator with that first state.
    pub fn new(state: u64) -> Random
        ensures { result ≡ state }
    {
        Random { state }
    }

    // A number from 0 to below n, and 0 where n is 0.
    pub fn below(&mut self, n: u32) -> u32
        ensures number { result ≡ number_below (next self.old) n }
        ensures state { self.new ≡ next self.old }
    {
        self.state = self
            .state
            .wrapping_mul(6364136223846793005)
            .wrapping_add(1442695040888963407);
        let high = self.state >> 33;
        if n == 0 {
            return 0;
        }
        (high % u64::from(n)) as u32
    }

    // A number from 1 to n, and 0 where n is 0.
    pub fn one_to(&mut self, n: u32) -> u32
        ensures number { result ≡ number_up_to (next self.old) n }
        ensures state { self.new ≡ next self.old }
    {
        let less = self.below(n);
        if n == 0 { 0 } else { less + 1 }
    }

    // That many numbers from 1 to n, drawn one after another. Fails only for want of memory, and then draws nothing.
    pub fn list(&mut self, heap: Global, count: u32, n: u32) -> Result<Vec<u32>, AllocError>
        ensures numbers { IfOk result (λ v. v.items ≡ numbers self.old count n) }
        ensures len { IfOk result (λ v. vec_len v ≡ count) }
        ensures state { self.new ≡ (if is_ok result then state_after self.old count else self.old) }
    {
        let mut list = vec![in heap; 0; count as usize]?;
        for number in list.iter_mut() {
            *number = self.one_to(n);
        }
        Ok(list)
    }
}

#[cfg(test)]
mod tests {
    use super::*;
    use std::test::Fail;

    // The first numbers from the state 1, as Python reckons them.
    #[test]
    fn lists(rt: HostRuntime) -> Result<(), Fail> {
        let mut random = Random::new(1);
        let list = random.list(rt.alloc(), 4, 6)?;
        assert_eq!(rt; list.as_slice(), [3, 4, 1, 1].as_slice());
        Ok(())
    }
}
