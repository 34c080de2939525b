//! An instance at work, with the stream that it has given so far.
ghost use Rattle.std.specs.Prelude.{IfOk, IsNone};
ghost use Rattle.ss_frames.specs.Snapshot.{IsSnapshot};
ghost use Rattle.ss_vertex.specs.Calls.{IsWanted};
ghost use Rattle.ss_vertex.specs.Standing.{InstStands};

use crate::streams::{element_at, giving, operator};
use ss_codec::Frame;
use ss_elem::Element;
use ss_plan::{Plan, vertices_by_number};
use fixtures::lines_of;
use ss_vertex::{ExecFault, Inst, SnapFault, snapshots_fit};
use std::alloc::Global;
use std::process::Abort;
use std::test::Fail;

/// An instance, and what is known of its vertex's stream.
#[derive(Drop)]
pub(crate) struct Run {
    pub(crate) inst: Inst,
    pub(crate) given: Vec<Element>,
}

/// The input and the number of what an instance that is up wants.
pub(crate) fn wanted_by(rt: &impl Abort, inst: &Inst) -> Option<(u32, u64)> {
    assert!(rt; inst.is_up());
    inst.wants()
}

/// Whether an instance has accepted so many elements and gives its next output with this number, and so many are left.
pub(crate) fn is_at(inst: &Inst, n: u64, next: u64, left: u64) -> bool {
    inst.n() == n && inst.next() == next && inst.left() == left
}

/// Whether no output is left.
fn is_idle(inst: &Inst) -> bool {
    inst.left() == 0 && inst.next_out().is_none()
}

/// The element that an instance wants.
fn arriving(rt: &impl Abort, alloc: Global, plan: &Plan, inst: &Inst) -> Result<Element, Fail>
    requires { InstStands plan.now inst.now }
    ensures { IfOk result (IsWanted plan.now inst.now) }
{
    plan.max_elements();
    assert!(rt; inst.is_up());
    match inst.wants() {
        Some(place) => element_at(rt, alloc, plan, inst.v(), place.0, place.1),
        None => Err(Fail::new("everything has arrived")),
    }
}

/// The instance is one of an operator.
fn check_operator(rt: &impl Abort, plan: &Plan, inst: &Inst)
    requires { InstStands plan.now inst.now }
    ensures { IsNone inst.now.list }
{
    plan.max_elements();
    vertices_by_number();
    operator(rt, plan, inst.v());
}

/// An output that is new, or one that is known and comes again.
fn keep(rt: &impl Abort, given: &mut Vec<Element>, number: u64, x: Element) -> Result<(), Fail> {
    match given.get(number as usize) {
        Some(known) => assert_eq!(rt; *known, x),
        None => {
            assert_eq!(rt; number, given.len() as u64);
            given.push(x)?;
        }
    }
    Ok(())
}

impl Run {
    /// An instance of a vertex before anything has arrived.
    pub(crate) fn begin(rt: &impl Abort, alloc: Global, plan: &Plan, v: u32) -> Result<Run, Fail>
        ensures { IfOk result (λ run. InstStands plan.now run.inst) }
    {
        let inst = Inst::fresh(alloc, plan, giving(rt, plan, v))?;
        Ok(Run {
            inst,
            given: Vec::new(alloc),
        })
    }

    /// Accepts the element that it wants.
    pub(crate) fn accept(
        &mut self,
        rt: &impl Abort,
        alloc: Global,
        plan: &Plan,
    ) -> Result<Result<(), ExecFault>, Fail>
        requires { InstStands plan.now self.old.inst }
        ensures { IfOk result (λ _. InstStands plan.now self.new.inst) }
    {
        assert!(rt; self.inst.is_up());
        assert!(rt; self.inst.left() == 0);
        let x = arriving(rt, alloc, plan, &self.inst)?;
        Ok(self.inst.execute(plan, &x))
    }

    /// Gives the first output left.
    pub(crate) fn give(&mut self, rt: &impl Abort, plan: &Plan) -> Result<(), Fail>
        requires { InstStands plan.now self.old.inst }
        ensures { IfOk result (λ _. InstStands plan.now self.new.inst) }
    {
        match self.inst.next_out() {
            Some(first) => keep(rt, &mut self.given, first.0, first.1)?,
            None => return Err(Fail::new("no output is left")),
        }
        assert!(rt; self.inst.left() > 0);
        self.inst.done();
        Ok(())
    }

    /// Gives all outputs left.
    pub(crate) fn give_all(&mut self, rt: &impl Abort, plan: &Plan) -> Result<(), Fail>
        requires { InstStands plan.now self.old.inst }
        ensures { IfOk result (λ _. InstStands plan.now self.new.inst) }
    {
        for _ in 0..self.inst.left() {
            self.give(rt, plan)?;
        }
        assert!(rt; is_idle(&self.inst));
        Ok(())
    }

    /// Accepts so many elements, and gives all outputs at each.
    pub(crate) fn take(
        &mut self,
        rt: &impl Abort,
        alloc: Global,
        plan: &Plan,
        count: u64,
    ) -> Result<(), Fail>
        requires { InstStands plan.now self.old.inst }
        ensures { IfOk result (λ _. InstStands plan.now self.new.inst) }
    {
        for _ in 0..count {
            self.accept(rt, alloc, plan)??;
            self.give_all(rt, plan)?;
        }
        Ok(())
    }

    /// The snapshot of an operator's instance that is up, or why there is none.
    pub(crate) fn snapshot(
        &self,
        rt: &impl Abort,
        alloc: Global,
        plan: &Plan,
    ) -> Result<Frame, SnapFault>
        requires { InstStands plan.now self.now.inst }
        ensures { IfOk result (IsSnapshot plan.now) }
    {
        check_operator(rt, plan, &self.inst);
        assert!(rt; self.inst.is_up());
        self.inst.snapshot(alloc, plan)
    }

    /// Crashes, and goes on from a snapshot of its vertex.
    pub(crate) fn restart(&mut self, rt: &impl Abort, plan: &Plan, f: &Frame) -> Result<(), Fail>
        requires stands { InstStands plan.now self.old.inst }
        requires snapshot { IsSnapshot plan.now f.now }
        ensures { IfOk result (λ _. InstStands plan.now self.new.inst) }
    {
        self.inst.crash();
        assert!(rt; !self.inst.is_up());
        assert!(rt; is_idle(&self.inst));
        assert!(rt; is_at(&self.inst, 0, 0, 0));
        self.go_on(rt, plan, f)
    }

    /// Goes on from a snapshot of its vertex, with nothing left, whatever was.
    pub(crate) fn go_on(&mut self, rt: &impl Abort, plan: &Plan, f: &Frame) -> Result<(), Fail>
        requires stands { InstStands plan.now self.old.inst }
        requires snapshot { IsSnapshot plan.now f.now }
        ensures { IfOk result (λ _. InstStands plan.now self.new.inst) }
    {
        plan.max_elements();
        snapshots_fit();
        assert!(rt; f.v == self.inst.v());
        self.inst.load(plan, f)?;
        assert!(rt; self.inst.is_up());
        assert!(rt; is_idle(&self.inst));
        assert!(rt; is_at(&self.inst, f.n, f.out, 0));
        Ok(())
    }

    /// It has given these lines.
    pub(crate) fn check_given(
        &self,
        rt: &impl Abort,
        alloc: Global,
        lines: &str,
    ) -> Result<(), Fail> {
        let given = lines_of(alloc, self.given.as_slice())?;
        assert!(rt; given.as_slice() == lines.as_bytes());
        Ok(())
    }
}
