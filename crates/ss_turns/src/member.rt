//! What may stand in a slot.
ghost use Rattle.std.specs.Prelude.{◌≡◌, ℕ, List};

/// A value that stands in a slot of its own and belongs to a plan.
pub trait Member: Drop {
    /// What all values of one set of turns have in common. It shows in contracts alone.
    type Plan;

    // What the value belongs to.
    ghost plan: { Self → Self.Plan };

    // The slot that is the value's own.
    ghost place: { Self → ℕ };

    // The 104 numbers by which a record tells the value.
    ghost numbers: { Self → List ℕ };

    /// The number of the slot that the value stands in, from 0.
    fn place(&self) -> u32
        ensures { result ≡ place self.now };

    /// What a pass records of the value when it takes it and when it gives it back.
    fn numbers(&self) -> [u64; 104]
        ensures { result ≡ numbers self.now };
}
