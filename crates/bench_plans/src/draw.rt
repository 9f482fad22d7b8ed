//! A fixed list of numbers that look drawn by chance.
ghost use Rattle.std.specs.Prelude.{◌<◌};

/// The numbers from here on.
#[derive(Drop)]
pub struct Draw {
    state: u64,
}

impl Draw {
    /// The list that a number begins.
    pub fn new(state: u64) -> Draw {
        Draw { state }
    }

    /// The next number, below this one.
    pub fn below(&mut self, most: u32) -> u32
        requires { 0 < most }
        ensures { result < most }
    {
        self.state = self
            .state
            .wrapping_mul(6364136223846793005)
            .wrapping_add(1442695040888963407);
        ((self.state >> 33) % u64::from(most)) as u32
    }
}
