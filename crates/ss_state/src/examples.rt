ghost use Rattle.ss_state.specs.Examples.{ReplicasRace, ReplicasRaceLeaves, TailLost};
ghost use Rattle.ss_state.specs.Examples.{CollectedAhead, CollectedAheadLeaves, SlowReplica, PassIsDue, PassOverFour};
ghost use Rattle.ss_state.specs.Examples.{WaitsAndOld, TrimDrops, SomeIsLeft};
ghost use Rattle.ss_state.specs.Examples.{NextActs, NoSnapWhileItHolds, TriggerIsObeyed, TriggersInOrder};
ghost use Rattle.ss_state.specs.Examples.{TriggerIsLeftOut, NotByTheRule};

/// Two replicas write the same element, and the stream takes it once.
pub fn racing_replicas_example()
    ensures outcomes { ReplicasRace }
    ensures leaves { ReplicasRaceLeaves }
{}

/// A tail is lost, and a replica makes its elements again from what is stored.
pub fn lost_tail_example()
    ensures { TailLost }
{}

/// Streams are collected up to what their readers' snapshots need, and replicas that lie behind load again.
pub fn collection_examples()
    ensures ahead { CollectedAhead }
    ensures ahead_leaves { CollectedAheadLeaves }
    ensures slow_replica { SlowReplica }
{}

/// A flush past the limit waits for a pass, and what a pass leaves.
pub fn pass_examples()
    ensures due { PassIsDue }
    ensures over_four { PassOverFour }
{}

/// What takes, writes and trims come to beside what is stored, and what a fault leaves.
pub fn storing_examples()
    ensures waits_and_old { WaitsAndOld }
    ensures trim { TrimDrops }
    ensures fault { SomeIsLeft }
{}

/// What the rule names as a replica's next act, and which acts obey it and a list of triggers.
pub fn rule_examples()
    ensures next_acts { NextActs }
    ensures replay { NoSnapWhileItHolds }
    ensures obeyed { TriggerIsObeyed }
    ensures in_order { TriggersInOrder }
    ensures left_out { TriggerIsLeftOut }
    ensures not_by_the_rule { NotByTheRule }
{}
