//! Numbers that look random: a linear congruence (Knuth's MMIX), of which the upper bits are taken.

/// Where the row of numbers stands.
#[derive(Drop)]
pub struct Dice {
    pub state: u64,
}

impl Dice {
    /// The next number, below so many.
    pub fn roll(&mut self, sides: u64) -> u64 {
        self.state = self
            .state
            .wrapping_mul(6_364_136_223_846_793_005)
            .wrapping_add(1_442_695_040_888_963_407);
        let upper = self.state >> 33;
        if sides == 0 { 0 } else { upper % sides }
    }
}
