ghost use Rattle.std.specs.Prelude.{◌<◌, length};
ghost use Rattle.ss_engine.specs.Joint.{Joint};
ghost use Rattle.ss_engine.specs.Wipes.{IsDownAt, IsWiped, IsWipedAt};
ghost use Rattle.ss_frames.specs.Plans.{plan_numbers};
ghost use Rattle.ss_state.specs.Numbers.{IsStream};

use crate::allowed::{is_stream, replica_count, vertex_count};
use crate::plant::Plant;
use ss_outside::{Depot, Outputs};

impl<O: Outputs, D: Depot> Plant<O, D> {
    ghost use Rattle.ss_engine.specs.Told.{plant_told};

    /// All that is in memory is lost: each tail loses its elements, and each replica goes down. What is stored stays.
    pub fn wipe(&mut self)
        requires joint { Joint (plant_told O.told D.told self.old) }
        ensures joint { Joint (plant_told O.told D.told self.new) }
        ensures wiped { IsWiped (plant_told O.told D.told self.old) (plant_told O.told D.told self.new) }
    {
        for v in 0..vertex_count(&self.plan) {
            self.wipe_vertex(v);
        }
    }

    /// The tail of vertex `v` loses its elements and its replicas go down, where it gives a stream.
    fn wipe_vertex(&mut self, v: u32)
        requires joint { Joint (plant_told O.told D.told self.old) }
        requires vertex { v < length (plan_numbers (plant_told O.told D.told self.old).plan).vertices }
        ensures joint { Joint (plant_told O.told D.told self.new) }
        ensures wiped { IsWipedAt v (plant_told O.told D.told self.old) (plant_told O.told D.told self.new) }
    {
        if is_stream(&self.plan, v) {
            self.lose(v);
            self.crash_all(v);
        }
    }

    /// Every replica of vertex `v` goes down.
    fn crash_all(&mut self, v: u32)
        requires joint { Joint (plant_told O.told D.told self.old) }
        requires stream { IsStream (plan_numbers (plant_told O.told D.told self.old).plan) v }
        ensures joint { Joint (plant_told O.told D.told self.new) }
        ensures down { IsDownAt v (plant_told O.told D.told self.old) (plant_told O.told D.told self.new) }
    {
        for r in 0..replica_count(&self.plan, v) {
            self.crash(v, r);
        }
    }
}
