ghost use Rattle.std.specs.Prelude.{◌≡◌, ℕ, ◌≤◌, ◌^◌};
ghost use Rattle.ss_elem.specs.Validity.{top};

use std::marker::Model;

/// How far a stream has come: the time of its last `Cti`, 0 before any, and 2^63 after its `End`.
#[derive(Clone, Copy, Debug, PartialEq, Eq, PartialOrd, Ord)]
pub struct Bound(u64);

impl Model for Bound {
    ghost Value = { ℕ };

    ghost view = { λ b. b.0 };

    ghost invariant = { λ b. b.0 ≤ 2 ^ 63 };

    ghost inverse = { λ n. record { 0 = n } };
}

impl Bound {
    /// The bound before any element.
    pub const ZERO: Bound = Bound(0);

    /// The bound after `End`, above every time.
    pub const TOP: Bound = Bound(1 << 63);

    /// The bound as a number.
    pub fn get(&self) -> u64
        ensures value { result ≡ self.now }
        ensures most { self.now ≤ 2 ^ 63 }
    {
        self.0
    }

    /// The bound of a stream whose last `Cti` has this time.
    pub fn at(time: u64) -> Bound
        requires { time ≤ 2 ^ 63 }
        ensures { result ≡ time }
    {
        Bound(time)
    }
    /// The bounds before any element and after `End`: what the two constants are.
    pub fn zero_and_top() -> (Bound, Bound)
        ensures zero { result.0 ≡ 0 }
        ensures top { result.1 ≡ top }
    {
        (Bound::ZERO, Bound::TOP)
    }
}
