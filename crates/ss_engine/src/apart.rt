ghost use Rattle.std.specs.Prelude.{◌≡◌, map};
ghost use Rattle.std.specs.Arc.{arc_value};
ghost use Rattle.ss_engine.specs.Apart.{AreParts};
ghost use Rattle.ss_engine.specs.Joint.{Joint};

use crate::plant::Plant;
use ss_outside::{Depot, Outputs};
use ss_plan::Plan;
use ss_tail::Tail;
use ss_vault::Vault;
use ss_vertex::Inst;
use std::sync::Arc;

impl<O: Outputs, D: Depot> Plant<O, D> {
    ghost use Rattle.ss_engine.specs.Told.{plant_told};
    ghost use Rattle.ss_vault.specs.Told.{vault_told};

    /// The parts of the job, as they are: its plan, a tail for each vertex in the order of declaration (that of a sink
    /// is never used), in the same order the replicas of each vertex, and the vault.
    pub fn take_apart(self) -> (Arc<Plan>, Vec<Tail>, Vec<Vec<Inst>>, Vault<O, D>)
        requires joint { Joint (plant_told O.told D.told self) }
        ensures plan { arc_value result.0 ≡ (plant_told O.told D.told self).plan }
        ensures tails { result.1.items ≡ (plant_told O.told D.told self).tails }
        ensures insts { map (λ replicas. replicas.items) result.2.items ≡ (plant_told O.told D.told self).insts }
        ensures vault { vault_told O.told D.told result.3 ≡ (plant_told O.told D.told self).vault }
        ensures stand { AreParts (arc_value result.0) result.1.items (map (λ replicas. replicas.items) result.2.items)
            (vault_told O.told D.told result.3) }
    {
        (self.plan, self.tails, self.insts, self.vault)
    }
}
