ghost use Rattle.std.specs.Prelude.{◌≡◌, ◌≤◌, length};
ghost use Rattle.ss_frames.specs.Frames.{op_number, padded};

use ss_expr::Spec;
use ss_merge::Merger;

/// The number by which a frame tells its operator.
pub(crate) fn op_number(spec: &Spec) -> u8
    ensures { result ≡ op_number spec.now }
{
    match spec {
        Spec::Select { .. } => 1,
        Spec::Union => 2,
        Spec::Window { .. } => 3,
        Spec::Join => 4,
        Spec::Session { .. } => 5,
        Spec::Except => 6,
    }
}

/// The position of each input, and zeros up to eight.
pub(crate) fn positions_of(merger: &Merger, width: u32) -> [u64; 8]
    requires width { width ≡ length merger.now.bounds }
    requires positions { width ≡ length merger.now.positions }
    requires few { width ≤ 8 }
    ensures { result ≡ padded merger.now.positions }
{
    let mut positions = [0; 8];
    for i in 0..width {
        positions[i as usize] = merger.pos(i);
    }
    positions
}

/// The bound of each input, and zeros up to eight.
pub(crate) fn bounds_of(merger: &Merger, width: u32) -> [u64; 8]
    requires width { width ≡ length merger.now.bounds }
    requires few { width ≤ 8 }
    ensures { result ≡ padded merger.now.bounds }
{
    let mut bounds = [0; 8];
    for i in 0..width {
        bounds[i as usize] = merger.bound(i).get();
    }
    bounds
}
