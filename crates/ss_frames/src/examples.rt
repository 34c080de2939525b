ghost use Rattle.ss_frames.specs.Examples.{WindowFrames, WindowNumbers, JoinFrame};

/// The snapshots of a window after each element, its numbers, and a snapshot of a join, written out by hand.
pub fn frame_examples()
    ensures window { WindowFrames }
    ensures numbers { WindowNumbers }
    ensures join { JoinFrame }
{}
