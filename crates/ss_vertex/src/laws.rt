ghost use Rattle.ss_vertex.specs.Laws.{InstancesAreNumbered, ReplicasAreEqual, SnapshotsFit};

use ss_frames::frames_have_codes;
use ss_meaning::{meaning_is_made_of_the_inputs, output_only_grows};
use ss_plan::{plans_mean_jobs, vertices_by_number};
use ss_state::numbers_are_meant;

/// Two instances of one vertex with the same numbers are the same in everything, so their snapshots have the same
/// bytes.
pub fn replicas_are_equal()
    ensures { ReplicasAreEqual }
{}

/// What the acts of a run say of an instance by its numbers is so of each instance that stands.
pub fn instances_are_numbered()
    ensures { InstancesAreNumbered }
{
    numbers_are_meant();
    meaning_is_made_of_the_inputs();
    output_only_grows();
    plans_mean_jobs();
    vertices_by_number();
}

/// A snapshot is one from which an instance of its vertex may go on.
pub fn snapshots_fit()
    ensures { SnapshotsFit }
{
    frames_have_codes();
}
