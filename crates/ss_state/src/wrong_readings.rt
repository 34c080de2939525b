ghost use Rattle.ss_state.specs.WrongReadings.{LoweringDurDiffers, CollectingByInstsDiffers};
ghost use Rattle.ss_state.specs.WrongReadings.{TrimmingToTheNewestDiffers};
ghost use Rattle.ss_state.specs.WrongReadings.{PassingFromSourcesDiffers, FillingHolesDiffers};
ghost use Rattle.ss_state.specs.WrongReadings.{LoadingTheOldestDiffers};

/// Readings of the acts that come near the right ones, and a state on which each of them differs.
pub fn wrong_readings_differ()
    ensures lose_lowering_dur { LoweringDurDiffers }
    ensures need_of_insts { CollectingByInstsDiffers }
    ensures newest_alone { TrimmingToTheNewestDiffers }
    ensures pass_from_sources { PassingFromSourcesDiffers }
    ensures fills_holes { FillingHolesDiffers }
    ensures load_oldest { LoadingTheOldestDiffers }
{}
