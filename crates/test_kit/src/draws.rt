//! Random numbers from a seed, the same at each run.
ghost use Rattle.std.specs.Prelude.{◌≤◌};

/// A sequence of random numbers: a linear congruence of 64 bits.
#[derive(Drop)]
pub struct Numbers {
    state: u64,
}

impl Numbers {
    /// The sequence that follows from a seed.
    pub fn new(seed: u64) -> Numbers {
        Numbers { state: seed }
    }

    // The next state.
    fn step(&mut self) -> u64 {
        self.state = self
            .state
            .wrapping_mul(6_364_136_223_846_793_005)
            .wrapping_add(1_442_695_040_888_963_407);
        self.state
    }

    /// The next number: the state with its high bits folded down. None comes twice before each has come once.
    pub fn draw(&mut self) -> u64 {
        let state = self.step();
        state ^ (state >> 29)
    }

    /// A number from 0 to `last`, by the remainder of the next one.
    pub fn draw_to(&mut self, last: u64) -> u64
        ensures { result ≤ last }
    {
        let number = self.draw();
        if last == u64::MAX {
            number
        } else {
            number % (last + 1)
        }
    }

    /// A number below `bound`, or 0 where that is 0: by the remainder of the high 31 bits of the next state.
    pub fn draw_below(&mut self, bound: u64) -> usize {
        ((self.step() >> 33) % bound.max(1)) as usize
    }
}
