ghost use Rattle.std.specs.Prelude.{◌≡◌, ◌<◌, length, Some};
ghost use Rattle.std.specs.Arc.{arc_value};

use crate::plant::Plant;
use ss_outside::{Depot, Outputs};
use ss_plan::Plan;
use ss_tail::Tail;
use ss_vault::Vault;
use ss_vertex::Inst;
use std::sync::Arc;

impl<O: Outputs, D: Depot> Plant<O, D> {
    ghost use Rattle.ss_engine.specs.Told.{inst_of, plant_told, replicas_of, tail_of};
    ghost use Rattle.ss_vault.specs.Told.{vault_told};

    /// The plan that is run.
    pub fn plan(&self) -> &Plan
        ensures { result.now ≡ (plant_told O.told D.told self.now).plan }
    {
        &self.plan
    }

    /// The durable side.
    pub fn vault(&self) -> &Vault<O, D>
        ensures { vault_told O.told D.told result.now ≡ (plant_told O.told D.told self.now).vault }
    {
        &self.vault
    }

    /// The tail of vertex `v`.
    pub fn tail(&self, v: u32) -> &Tail
        requires { v < length (plant_told O.told D.told self.now).tails }
        ensures { result.now ≡ tail_of (plant_told O.told D.told self.now) v }
    {
        &self.tails[v as usize]
    }

    /// Replica `r` of vertex `v`.
    pub fn inst(&self, v: u32, r: u32) -> &Inst
        requires vertex { v < length (plant_told O.told D.told self.now).insts }
        requires replica { r < length (replicas_of (plant_told O.told D.told self.now) v) }
        ensures { inst_of (plant_told O.told D.told self.now) v r ≡ Some result.now }
    {
        &self.insts[v as usize][r as usize]
    }

    /// The plan and the devices.
    pub fn into_parts(self) -> (Arc<Plan>, D, O)
        ensures plan { arc_value result.0 ≡ (plant_told O.told D.told self).plan }
        ensures depot { D.told result.1 ≡ (plant_told O.told D.told self).vault.depot }
        ensures outputs { O.told result.2 ≡ (plant_told O.told D.told self).vault.outputs }
    {
        let (depot, outputs) = self.vault.into_parts();
        (self.plan, depot, outputs)
    }
}
