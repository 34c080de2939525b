//! What may stand in a slot.
ghost use Rattle.std.specs.Prelude.{◌≡◌};

use crate::crew_plan::CrewPlan;
use crate::rows::{inst_row, tail_row, vault_row};
use ss_outside::{Depot, Outputs};
use ss_plan::Plan;
use ss_tail::Tail;
use ss_turns::Member;
use ss_vault::{Counts, Vault};
use ss_vertex::Inst;
use std::marker::Model;
use std::sync::Arc;

/// A part of a running job, with what it needs to be worked on apart from the others. A tail and a replica stand for
/// the plan, and a vault is sound.
#[derive(Drop)]
pub struct Part<O: Outputs, D: Depot> {
    pub(crate) plan: Arc<Plan>,
    pub(crate) started: Counts,
    pub(crate) place: u32,
    pub(crate) body: Body<O, D>,
}

/// What the part is.
#[derive(Drop)]
pub(crate) enum Body<O, D> {
    Tail(Tail),
    Replica(Replica),
    Vault(Vault<O, D>),
}

/// An instance, and the newest snapshot of its vertex that it knows to be stored; 0 of a source.
#[derive(Drop)]
pub(crate) struct Replica {
    pub(crate) inst: Inst,
    pub(crate) last: u64,
}

impl<O: Outputs, D: Depot> Model for Part<O, D> {
    ghost use Rattle.ss_crew.specs.Standing.{PartTold};

    ghost Value = { PartTold };

    ghost use Rattle.ss_expr.specs.contracts.stream_operator.Spec as the_spec;
    ghost use Rattle.std.specs.Coded.{codes};

    ghost coded = { Prim.hlevel (codes, the_spec.the_row.coded) };

    ghost use Rattle.std.specs.Arc.{arc_value};
    ghost use Rattle.ss_crew.specs.Standing.{StandsAt, part_plan, row_of};

    ghost view = { λ p. record {
      plan = part_plan (arc_value p.plan) p.started;
      place = p.place;
      numbers = row_of O.told D.told (arc_value p.plan) p.body;
    } };

    ghost invariant = { λ p. StandsAt O.told D.told (part_plan (arc_value p.plan) p.started) p.place p.body };
}

impl<O: Outputs, D: Depot> Member for Part<O, D> {
    type Plan = CrewPlan;

    ghost plan = { λ p. p.plan };

    ghost place = { λ p. p.place };

    ghost numbers = { λ p. p.numbers };

    fn place(&self) -> u32 {
        self.place
    }

    fn numbers(&self) -> [u64; 104] {
        match &self.body {
            Body::Tail(tail) => tail_row(tail),
            Body::Replica(replica) => inst_row(&replica.inst, replica.last),
            Body::Vault(vault) => vault_row(&self.plan, vault),
        }
    }
}
