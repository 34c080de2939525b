ghost use Rattle.ss_rounds.specs.Examples.{ActsLowerIt, CrashRaisesLess, PassLowersIt, WaitsChangeNothingHere};

/// The total of a small job before and after acts.
pub fn total_examples()
    ensures acts { ActsLowerIt }
    ensures crash { CrashRaisesLess }
    ensures pass { PassLowersIt }
    ensures waits { WaitsChangeNothingHere }
{}
