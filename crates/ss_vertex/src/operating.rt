ghost use Rattle.std.specs.Prelude.{◌≡◌, ◌+◌, ◌<◌, ◌≤◌, ◌^◌, ℕ, [], Some, IsSome, IfOk, IfErr, OnOk, OnErr, take, All};
ghost use Rattle.ss_elem.specs.Validity.{top};
ghost use Rattle.ss_frames.specs.Frames.{frame_of};
ghost use Rattle.ss_frames.specs.Within.{AreKept, IsWithin};
ghost use Rattle.ss_job.specs.JobText.{spec_of};
ghost use Rattle.ss_meaning.specs.Positions.{out};
ghost use Rattle.ss_plan.specs.Limit.{IsPlan};
ghost use Rattle.ss_plan.specs.Plan.{PlanText, vertices_of};
ghost use Rattle.ss_vertex.specs.Arriving.{given_at, wanted};
ghost use Rattle.ss_vertex.specs.Calls.{FitsVertex, IsFullAt, IsLoadFault, IsWantedAt};
ghost use Rattle.ss_vertex.specs.Standing.{operator_at};

use crate::fault::{ExecFault, LoadFault};
use crate::frames::{bounds_of, op_number, positions_of};
use crate::known::laws_of_vertices;
use crate::work::check_kept;
use ss_codec::{Frame, Image};
use ss_elem::{Element, Out};
use ss_image::ImageFault;
use ss_merge::Merger;
use ss_oper::Oper;
use ss_plan::Plan;
use std::alloc::{AllocError, Global};

/// An operator at work: how many elements it has accepted, how far their merge has come, and what it remembers.
#[derive(Drop)]
pub(crate) struct Operating {
    pub(crate) n: u64,
    pub(crate) merger: Merger,
    pub(crate) oper: Oper,
}

impl Operating {
    ghost use Rattle.ss_vertex.specs.Kept.{IsFromFrame, OperatesAt, operator_kept};

    /// The operator of vertex `v` before any element.
    pub(crate) fn fresh(alloc: Global, plan: &Plan, v: u32) -> Result<Operating, AllocError>
        requires { IsSome (spec_of plan.now.job v) }
        ensures { IfOk result (λ o. (o.n ≡ 0) × OperatesAt plan.now v o) }
    {
        plan.max_elements();
        laws_of_vertices();
        let job = plan.job();
        let spec = job.spec(v).unwrap();
        let width = job.graph().node(v).width;
        let oper = Oper::new(alloc, spec)?;
        Ok(Operating {
            n: 0,
            merger: Merger::new(width),
            oper,
        })
    }

    /// The operator of vertex `v` that goes on from a frame of it.
    pub(crate) fn of_frame(alloc: Global, plan: &Plan, f: &Frame) -> Result<Operating, LoadFault>
        requires vertex { FitsVertex plan.now f.now.v f.now }
        requires bounds { All (λ b. b ≤ top) (take f.now.width f.now.bounds) }
        ensures ok { IfOk result (λ o. (o.n ≡ f.now.n) × IsFromFrame plan.now f.now o) }
        ensures fault { IfErr result (IsLoadFault plan.now f.now f.now.v) }
    {
        plan.max_elements();
        laws_of_vertices();
        let spec = plan.job().spec(f.v).unwrap();
        let merger = Merger::at(f.width, f.bounds, f.pos);
        match Oper::of_image(alloc, spec, &merger, f.image.as_slice()) {
            Ok(oper) => Ok(Operating {
                n: f.n,
                merger,
                oper,
            }),
            Err(ImageFault::At { at }) => Err(LoadFault::Damaged { at }),
            Err(ImageFault::Memory) => Err(LoadFault::Memory),
        }
    }

    /// The input and the number of the element that arrives next; `None` where everything has arrived.
    pub(crate) fn wants(&self) -> Option<(u32, u64)>
        ensures { (plan : PlanText) (v : ℕ) → IsPlan plan → OperatesAt plan v self.now
            → result ≡ wanted (vertices_of plan) v self.now.n }
    {
        laws_of_vertices();
        match self.merger.choose() {
            Some(input) => Some((input, self.merger.pos(input))),
            None => None,
        }
    }

    /// Accepts the element that arrives next at vertex `v`, which has given `total` elements before, and puts what it
    /// gives at this one into `given`.
    pub(crate) fn accept(
        &mut self,
        plan: &Plan,
        v: u32,
        total: u64,
        x: &Element,
        given: &mut Out,
    ) -> Result<(), ExecFault>
        requires operator { OperatesAt plan.now v self.old }
        requires within { IsWithin plan.now v self.old.n }
        requires kept { AreKept plan.now v self.old.n }
        requires total { total ≡ out (vertices_of plan.now) v self.old.n }
        requires wanted { IsWantedAt plan.now v self.old.n x.now }
        requires none { given.old.elements ≡ [] }
        ensures n { OnOk result (self.new.n ≡ self.old.n + 1) }
        ensures operator { OnOk result (OperatesAt plan.now v self.new) }
        ensures within { OnOk result (IsWithin plan.now v (self.old.n + 1)) }
        ensures kept { OnOk result (AreKept plan.now v (self.old.n + 1)) }
        ensures given { OnOk result (given.new.elements ≡ given_at (vertices_of plan.now) v self.old.n) }
        ensures fault { IfErr result (IsFullAt plan.now v self.old.n) }
        ensures err { OnErr result (self.new ≡ self.old) }
        ensures err_given { OnErr result (given.new.elements ≡ []) }
    {
        laws_of_vertices();
        check_kept(x);
        let most = plan.max_elements();
        let input = self.merger.choose().unwrap();
        let mut merger = self.merger.copied();
        merger.accept(x);
        let reached = total + self.oper.count_given(input, x, &merger);
        if reached > most {
            return Err(ExecFault::Full { reached });
        }
        match self.oper.step(input, x, &merger, given) {
            Ok(()) => (),
            Err(_) => return Err(ExecFault::Memory),
        }
        self.merger = merger;
        self.n += 1;
        Ok(())
    }

    /// The snapshot of vertex `v`, which has given `total` elements.
    pub(crate) fn frame(
        &self,
        alloc: Global,
        plan: &Plan,
        v: u32,
        total: u64,
    ) -> Result<Frame, AllocError>
        requires operator { OperatesAt plan.now v self.now }
        requires within { IsWithin plan.now v self.now.n }
        requires total { total ≡ out (vertices_of plan.now) v self.now.n }
        ensures { IfOk result (λ f. f ≡ frame_of plan.now v self.now.n) }
    {
        plan.max_elements();
        laws_of_vertices();
        let job = plan.job();
        let spec = job.spec(v).unwrap();
        let width = job.graph().node(v).width;
        let mut image = Vec::new(alloc);
        self.oper.image(&mut image)?;
        Ok(Frame {
            v,
            n: self.n,
            out: total,
            op: op_number(spec),
            width,
            pos: positions_of(&self.merger, width),
            bounds: bounds_of(&self.merger, width),
            image: Image::of(image),
        })
    }
}
