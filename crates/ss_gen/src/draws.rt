ghost use Rattle.std.specs.Prelude.{◌≡◌, ◌<◌};
ghost use Rattle.ss_gen.specs.Draws.{drawn, next_state};

use std::marker::Model;

const MULTIPLIER: u128 = 6_364_136_223_846_793_005;

const INCREMENT: u128 = 1_442_695_040_888_963_407;

/// Numbers that are drawn one after the other from a seed, the same from the same seed: the upper bits of the state of
/// a linear congruential generator.
#[derive(Drop)]
pub(crate) struct Draws {
    state: u64,
}

impl Model for Draws {
    ghost use Rattle.std.specs.Prelude.{ℕ};

    ghost Value = { ℕ };

    ghost view = { λ d. d.state };

    ghost invariant = { λ d. Unit {0} };
}

impl Draws {
    pub(crate) fn from(seed: u64) -> Draws
        ensures { result ≡ seed }
    {
        Draws { state: seed }
    }

    /// A number below `most`.
    pub(crate) fn below(&mut self, most: u64) -> u64
        requires { 0 < most }
        ensures state { self.new ≡ next_state self.old }
        ensures drawn { result ≡ drawn self.new most }
        ensures below { result < most }
    {
        let state = (self.state as u128 * MULTIPLIER + INCREMENT) % (1 << 64);
        self.state = state as u64;
        (self.state >> 33) % most
    }
}
