//! The keys of the benchmark.
use std::alloc::{AllocError, Global};

/// Pseudo-random numbers by the generator xorshift64*, with shifts of 12, 25 and 27 (S. Vigna, "An experimental exploration of
/// Marsaglia's xorshift generators, scrambled", 2016).
#[derive(Drop)]
pub struct Numbers {
    state: u64,
}

impl Numbers {
    /// Returns a generator with a state, which is not 0.
    pub fn from_state(state: u64) -> Numbers {
        Numbers { state }
    }

    /// Returns the next number.
    pub fn draw(&mut self) -> u64 {
        self.state ^= self.state >> 12;
        self.state ^= self.state << 25;
        self.state ^= self.state >> 27;
        self.state.wrapping_mul(0x2545_f491_4f6c_dd1d)
    }
}

/// Returns the next `count` numbers.
pub fn drawn(numbers: &mut Numbers, count: usize, alloc: Global) -> Result<Vec<u64>, AllocError> {
    let mut keys = Vec::with_capacity(alloc, count)?;
    for _ in 0..count {
        keys.push(numbers.draw())?;
    }
    Ok(keys)
}

/// Shuffles keys: from the last one on, each is swapped with one drawn from those before it and itself.
pub fn shuffle(keys: &mut [u64], numbers: &mut Numbers) {
    for last in (1..keys.len()).rev() {
        let other = numbers.draw() % (last as u64 + 1);
        keys.swap(last, other as usize);
    }
}
