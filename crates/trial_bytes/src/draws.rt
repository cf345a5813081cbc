//! Numbers that are drawn, the same ones each time.

ghost use Rattle.std.specs.Prelude.{◌<◌};

/// Draws numbers by a fixed congruence.
#[derive(Drop)]
pub struct Draws {
    state: u32,
}

impl Draws {
    /// The draws that begin with a number.
    pub fn new(state: u32) -> Draws {
        Draws { state }
    }

    /// The next number below a bound.
    pub fn below(&mut self, bound: usize) -> usize
        requires { 0 < bound }
        ensures { result < bound }
    {
        let state = self.state.wrapping_mul(1_103_515_245).wrapping_add(12_345);
        self.state = state % 2_147_483_648;
        (self.state / 65_536) as usize % bound
    }

    /// The next byte.
    pub fn byte(&mut self) -> u8 {
        self.below(256) as u8
    }
}
