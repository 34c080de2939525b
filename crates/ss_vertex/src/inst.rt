ghost use Rattle.std.specs.Prelude.{◌≡◌, ◌<◌, ◌≤◌, IfOk, IfErr, OnOk, OnErr, IsSome, IsNone, IsSomeAnd, IfSome, Some};
ghost use Rattle.std.specs.Prelude.{slice_get, take, All};
ghost use Rattle.ss_elem.specs.Validity.{top};
ghost use Rattle.ss_frames.specs.Frames.{frame_of};
ghost use Rattle.ss_frames.specs.Snapshot.{IsSnapshot};
ghost use Rattle.ss_meaning.specs.Meaning.{meaning};
ghost use Rattle.ss_plan.specs.Limit.{IsPlan};
ghost use Rattle.ss_plan.specs.Plan.{PlanText, vertices_of};
ghost use Rattle.ss_state.specs.NumbersOfMeaning.{GivesStream};
ghost use Rattle.ss_vertex.specs.Arriving.{wanted};

use crate::fault::{ExecFault, LoadFault, SnapFault};
use crate::known::laws_of_vertices;
use crate::operating::Operating;
use crate::work::{Work, fresh_work};
use ss_codec::Frame;
use ss_elem::{Element, Out};
use ss_plan::Plan;
use std::alloc::{AllocError, Global};
use std::marker::Model;

/// An instance of a vertex: one of its replicas. It is down, or up after the first so many elements that arrive at
/// the vertex, with the outputs of the last one that are not done with.
#[derive(Drop)]
pub struct Inst {
    alloc: Global,
    v: u32,
    // The number of the first output left.
    next: u64,
    // What was given at the last element, and how much of it is done with.
    given: Out,
    done: usize,
    work: Work,
}

impl Model for Inst {
    ghost use Rattle.ss_vertex.specs.Inst.{InstState};

    ghost Value = { InstState };

    ghost use Rattle.ss_expr.specs.contracts.stream_operator.Spec as the_spec;
    ghost use Rattle.std.specs.Coded.{codes};

    ghost coded = { Prim.hlevel (codes, the_spec.the_row.coded) };

    ghost use Rattle.ss_vertex.specs.Kept.{inst_kept, IsCounted};

    ghost view = { λ i. inst_kept i.v i.next i.given i.done i.work };

    ghost invariant = { λ i. IsCounted i.next i.given i.done };
}

impl Inst {
    ghost use Rattle.ss_vertex.specs.Calls.{FitsVertex, GoesOnFrom, IsExecFault, IsLoadFault, IsReady};
    ghost use Rattle.ss_vertex.specs.Calls.{IsSnapFault, IsWanted, fresh_inst, given_after, with_one_more};
    ghost use Rattle.ss_vertex.specs.Inst.{InstState, crashed, first_left, held_of, is_up, left_of, loaded_at, n_of};
    ghost use Rattle.ss_vertex.specs.Inst.{next_of, with_one_done};
    ghost use Rattle.ss_vertex.specs.Standing.{InstStands};

    /// An instance of a vertex that gives a stream, up before the first element.
    ///
    /// An error is want of memory.
    pub fn fresh(alloc: Global, plan: &Plan, v: u32) -> Result<Inst, AllocError>
        requires { GivesStream (vertices_of plan.now) v }
        ensures fresh { IfOk result (λ inst. inst ≡ fresh_inst plan.now v) }
        ensures stands { IfOk result (InstStands plan.now) }
    {
        let work = fresh_work(alloc, plan, v)?;
        Ok(Inst {
            alloc,
            v,
            next: 0,
            given: Out::new(alloc),
            done: 0,
            work,
        })
    }

    /// Goes on from a frame of its vertex, with nothing left to write, whatever it was before.
    pub fn load(&mut self, plan: &Plan, f: &Frame) -> Result<(), LoadFault>
        requires vertex { FitsVertex plan.now self.old.v f.now }
        requires bounds { All (λ b. b ≤ top) (take f.now.width f.now.bounds) }
        ensures ok { OnOk result (GoesOnFrom plan.now f.now self.old self.new) }
        ensures fault { IfErr result (IsLoadFault plan.now f.now self.old.v) }
        ensures err { OnErr result (self.new ≡ self.old) }
        // A snapshot of a vertex is never damaged, and an instance that goes on from one stands.
        ensures undamaged { IsSnapshot plan.now f.now → IfErr result (λ fault. fault ≡ LoadFault.Memory) }
        ensures stands { IsSnapshot plan.now f.now → InstStands plan.now self.old → InstStands plan.now self.new }
    {
        plan.max_elements();
        laws_of_vertices();
        let next = f.out;
        let operating = match Operating::of_frame(self.alloc, plan, f) {
            Ok(operating) => operating,
            Err(fault) => return Err(fault),
        };
        // Whatever was left is done with.
        let done = self.given.as_slice().len();
        self.work.go_on(operating);
        self.next = next;
        self.done = done;
        Ok(())
    }

    /// Goes on behind the first `n` elements of its list, with nothing left to write, whatever it was before.
    pub fn load_source(&mut self, n: u64)
        requires { IsSomeAnd self.old.list (λ len. n ≤ len) }
        ensures loaded { self.new ≡ loaded_at self.old n }
        ensures stands { (plan : PlanText) → IsPlan plan → InstStands plan self.old → InstStands plan self.new }
    {
        laws_of_vertices();
        self.work.list_from(n);
        self.next = n;
        self.given.clear();
        self.done = 0;
    }

    /// The number of its vertex.
    pub fn v(&self) -> u32
        ensures { result ≡ self.now.v }
    {
        self.v
    }

    /// Whether it is up.
    pub fn is_up(&self) -> bool
        ensures { result ≡ is_up self.now }
    {
        self.work.n().is_some()
    }

    /// The input and the number of the element that it accepts next; `None` exactly where everything has arrived.
    pub fn wants(&self) -> Option<(u32, u64)>
        requires { IsSome self.now.running }
        ensures { (plan : PlanText) → IsPlan plan → InstStands plan self.now
            → result ≡ wanted (vertices_of plan) self.now.v (n_of self.now) }
    {
        self.work.wants()
    }

    /// Accepts the element that it wants. What its vertex gives at it is left then.
    pub fn execute(&mut self, plan: &Plan, x: &Element) -> Result<(), ExecFault>
        requires stands { InstStands plan.now self.old }
        requires ready { IsReady self.old }
        requires wanted { IsWanted plan.now self.old x.now }
        ensures accepted { OnOk result (self.new ≡ with_one_more plan.now self.old) }
        ensures within { OnOk result (given_after plan.now self.old ≤ plan.now.job.max_elements) }
        ensures fault { IfErr result (IsExecFault plan.now self.old) }
        ensures err { OnErr result (self.new ≡ self.old) }
        ensures stands { InstStands plan.now self.new }
    {
        plan.max_elements();
        laws_of_vertices();
        // Nothing is left, so the places of the outputs are free.
        self.given.clear();
        self.done = 0;
        self.work
            .accept(plan, self.v, self.next, x, &mut self.given)
    }

    /// The first output left, with its number in the vertex's stream; `None` exactly where none is left.
    pub fn next_out(&self) -> Option<(u64, Element)>
        ensures first { result ≡ first_left self.now }
        ensures meant { (plan : PlanText) → IsPlan plan → InstStands plan self.now
            → IfSome result (λ first. slice_get (meaning (vertices_of plan) self.now.v) first.0 ≡ Some first.1) }
    {
        laws_of_vertices();
        if self.left() == 0 {
            return None;
        }
        Some((self.next, self.given.as_slice()[self.done]))
    }

    /// The first output left is done with.
    pub fn done(&mut self)
        requires { 0 < left_of self.old }
        ensures done { self.new ≡ with_one_done self.old }
        ensures stands { (plan : PlanText) → InstStands plan self.old → InstStands plan self.new }
    {
        self.next += 1;
        self.done += 1;
    }

    /// The number of the first output left, and where none is left of the next one that it gives; 0 where it is down.
    pub fn next(&self) -> u64
        ensures { result ≡ next_of self.now }
    {
        match self.work.n() {
            Some(_) => self.next,
            None => 0,
        }
    }

    /// How many outputs are left; 0 where it is down.
    pub fn left(&self) -> u64
        ensures { result ≡ left_of self.now }
    {
        match self.work.n() {
            Some(_) => (self.given.as_slice().len() - self.done) as u64,
            None => 0,
        }
    }

    /// How many elements it has accepted; 0 where it is down.
    pub fn n(&self) -> u64
        ensures { result ≡ n_of self.now }
    {
        self.work.n().unwrap_or(0)
    }

    /// How many entries its operator remembers; 0 at a source, and where it is down.
    pub fn held(&self) -> u64
        ensures { result ≡ held_of self.now }
    {
        self.work.held()
    }

    /// The snapshot of its vertex after the elements that it has accepted.
    pub fn snapshot(&self, alloc: Global, plan: &Plan) -> Result<Frame, SnapFault>
        requires up { IsSome self.now.running }
        requires operator { IsNone self.now.list }
        requires stands { InstStands plan.now self.now }
        ensures frame { IfOk result (λ f. f ≡ frame_of plan.now self.now.v (n_of self.now)) }
        ensures snapshot { IfOk result (IsSnapshot plan.now) }
        ensures place { IfOk result (λ f. (f.v ≡ self.now.v) × (f.n ≡ n_of self.now)) }
        ensures none_left { OnOk result (left_of self.now ≡ 0) }
        ensures fault { IfErr result (IsSnapFault self.now) }
    {
        plan.max_elements();
        laws_of_vertices();
        let left = self.left();
        if left > 0 {
            return Err(SnapFault::Pending { left });
        }
        match self.work.frame(alloc, plan, self.v, self.next) {
            Ok(frame) => Ok(frame),
            Err(_) => Err(SnapFault::Memory),
        }
    }

    /// Goes down. Nothing of what it had is left.
    pub fn crash(&mut self)
        ensures crashed { self.new ≡ crashed self.old }
        ensures stands { (plan : PlanText) → InstStands plan self.old → InstStands plan self.new }
    {
        self.work.stop();
    }
}
