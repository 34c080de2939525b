ghost use Rattle.std.specs.Prelude.{◌≡◌, ◌<◌, ◌≤◌, Some, length, slice_get, IfOk, IfErr, OnOk};

use crate::fault::PlanFault;
use crate::sources::{long_source, place_of};
use ss_elem::Element;
use ss_job::Job;
use std::marker::Model;

/// A job with the lists of its sources.
#[derive(Drop)]
pub struct Plan {
    job: Job,
    lists: Vec<Vec<Element>>,
}

impl Model for Plan {
    ghost use Rattle.ss_plan.specs.Plan.{PlanText};

    ghost Value = { PlanText };

    ghost use Rattle.ss_expr.specs.contracts.stream_operator.Spec as spec;
    ghost use Rattle.std.specs.Coded.{codes};

    ghost coded = { Prim.hlevel (codes, spec.the_row.coded) };

    ghost use Rattle.ss_plan.specs.Plan.{AreSourceLists, lists_of, plan_of};
    ghost use Rattle.ss_plan.specs.Limit.{AreWithin};

    ghost view = { λ plan. plan_of plan.job plan.lists.items };

    ghost invariant = { λ plan. AreSourceLists plan.job (lists_of plan.lists.items)
        × AreWithin (plan_of plan.job plan.lists.items) };
}

impl Plan {
    ghost use Rattle.ss_plan.specs.Plan.{AreSourceLists, lists_of, plan_of, source_list};
    ghost use Rattle.ss_plan.specs.Limit.{IsSourcesFault, AreWithin, IsPlan};
    ghost use Rattle.ss_job.specs.JobText.{op_of};
    ghost use Rattle.ss_job.specs.declared.op.Op.TheVariants as op;

    /// The plan of a job whose sources, in their order, give these lists; refused at the first list that is longer
    /// than the job allows.
    pub fn of(job: Job, lists: Vec<Vec<Element>>) -> Result<Plan, PlanFault>
        requires { AreSourceLists job (lists_of lists.items) }
        ensures plan { IfOk result (λ plan. plan ≡ plan_of job lists.items) }
        ensures within { OnOk result (AreWithin (plan_of job lists.items)) }
        ensures fault { IfErr result (IsSourcesFault (plan_of job lists.items)) }
    {
        match long_source(&job, lists.as_slice()) {
            Some((v, reached)) => Err(PlanFault::Full { v, reached }),
            None => Ok(Plan { job, lists }),
        }
    }

    /// The job.
    pub fn job(&self) -> &Job
        ensures job { result.now ≡ self.now.job }
        ensures lists { AreSourceLists self.now.job self.now.lists }
    {
        &self.job
    }

    /// The most elements that a stream may have, 1 to 131,072. This is the one reader that says what every plan
    /// keeps; who needs that calls it, and it costs nothing.
    pub fn max_elements(&self) -> u64
        ensures most { result ≡ self.now.job.max_elements }
        ensures plan { IsPlan self.now }
    {
        let job = &self.job;
        job.graph();
        job.max_elements()
    }

    /// How many elements the list of a source has.
    pub fn source_len(&self, v: u32) -> u64
        requires { op_of self.now.job v ≡ Some op.Source }
        ensures { result ≡ length (source_list self.now v) }
    {
        self.source(v).len() as u64
    }

    /// Element `n` of the list of a source. Of a source only the elements from `mark` on are kept.
    pub fn source_at(&self, v: u32, n: u64, mark: u64) -> Element
        requires source { op_of self.now.job v ≡ Some op.Source }
        requires kept { mark ≤ n }
        requires within { n < length (source_list self.now v) }
        ensures { slice_get (source_list self.now v) n ≡ Some result }
    {
        let _ = mark;
        self.source(v)[n as usize]
    }

    /// The list of a source.
    pub(crate) fn source(&self, v: u32) -> &[Element]
        requires { op_of self.now.job v ≡ Some op.Source }
        ensures { result.now ≡ source_list self.now v }
    {
        let place = place_of(&self.job, v);
        self.lists.as_slice()[place].as_slice()
    }
}
