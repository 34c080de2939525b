ghost use Rattle.ss_vault.specs.Examples.{FlushAnswers, KeepAnswers, TakeAnswers, TrimAnswers};

/// What a vault of a small job answers.
pub fn answer_examples()
    ensures flush { FlushAnswers }
    ensures keep { KeepAnswers }
    ensures take { TakeAnswers }
    ensures trim { TrimAnswers }
{}
