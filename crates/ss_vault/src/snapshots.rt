//! Snapshots on their way to a depot and from it.
ghost use Rattle.std.specs.Prelude.{◌≡◌, ◌<◌, ◌^◌, IsNone, IsSome, Some, length};
ghost use Rattle.ss_codec.specs.Frame.{IsFrame, frame_bytes};
ghost use Rattle.ss_codec.specs.declared.frame.Frame.{Frame};
ghost use Rattle.ss_outside.specs.Depot.{with_frame};
ghost use Rattle.ss_vault.specs.Devices.{GivesWhole, StoresCode};

use crate::fault::VaultFault;
use ss_codec::{Frame, FrameFault, get_frame, put_frame};
use ss_outside::{Depot, DepotFault};
use std::alloc::Global;

/// Stores the snapshot, which isn't held yet.
pub(crate) fn keep_frame<D: Depot>(
    depot: &mut D,
    f: &Frame,
    buffer: &mut Vec<u8>,
) -> Result<(), VaultFault>
    requires vertex { f.now.v < 32 }
    requires absent { IsNone ((D.told depot.old).contents.frames f.now.v f.now.n) }
    requires frame { IsFrame f.now }
    requires few { length (frame_bytes f.now) < 2 ^ 32 }
    ensures { StoresCode (D.told depot.old) (D.told depot.new)
        (with_frame f.now.v f.now.n (frame_bytes f.now) (D.told depot.old).contents) result }
{
    buffer.clear();
    match put_frame(f, buffer) {
        Ok(()) => (),
        Err(_) => return Err(VaultFault::Memory),
    }
    match depot.keep(f.v, f.n, buffer.as_slice()) {
        Ok(()) => Ok(()),
        Err(DepotFault::Failed) => Err(VaultFault::Store {
            count: depot.faults(),
        }),
        Err(DepotFault::Memory) => Err(VaultFault::Memory),
    }
}

/// Snapshot `n` of vertex `v`, which is held.
pub(crate) fn load_frame<D: Depot>(
    alloc: Global,
    depot: &mut D,
    v: u32,
    n: u64,
    buffer: &mut Vec<u8>,
) -> Result<Frame, VaultFault>
    requires vertex { v < 32 }
    requires held { IsSome ((D.told depot.old).contents.frames v n) }
    ensures { (f : Frame) → IsFrame f → f.v ≡ v → f.n ≡ n
        → (D.told depot.old).contents.frames v n ≡ Some (frame_bytes f)
        → GivesWhole (D.told depot.old) (D.told depot.new) v n f result }
{
    match depot.load(v, n, buffer) {
        Ok(()) => (),
        Err(DepotFault::Failed) => {
            return Err(VaultFault::Store {
                count: depot.faults(),
            });
        }
        Err(DepotFault::Memory) => return Err(VaultFault::Memory),
    }
    match get_frame(alloc, buffer.as_slice(), v, n) {
        Ok(f) => Ok(f),
        Err(FrameFault::Code(_)) => Err(VaultFault::Damaged { v, n }),
        Err(FrameFault::Memory) => Err(VaultFault::Memory),
    }
}
