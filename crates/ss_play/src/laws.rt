ghost use Rattle.ss_play.specs.Laws.{AllAreTold, RefusalsAreTold, StopsAreTold};

/// What is said of acts that were made on a job from its start on, whoever chose them.
pub fn plays_are_told()
    ensures all { AllAreTold }
    ensures stops { StopsAreTold }
    ensures refusals { RefusalsAreTold }
{}
