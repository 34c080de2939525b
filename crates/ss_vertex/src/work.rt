ghost use Rattle.std.specs.Prelude.{◌≡◌, ◌+◌, ◌^◌, ◌<◌, ℕ, List, [], ◌∷◌, Some, None, IsSome, IsNone};
ghost use Rattle.std.specs.Prelude.{IfOk, IfErr, OnOk, OnErr, nat_lt, if◌then◌else◌};
ghost use Rattle.ss_elem.specs.Rows.{IsKept};
ghost use Rattle.ss_elem.specs.declared.element.Element.{Element};
ghost use Rattle.ss_frames.specs.Frames.{frame_of};
ghost use Rattle.ss_frames.specs.Within.{AreKept, IsWithin};
ghost use Rattle.ss_meaning.specs.Meaning.{vertex};
ghost use Rattle.ss_plan.specs.Limit.{IsPlan};
ghost use Rattle.ss_plan.specs.Plan.{PlanText, vertices_of};
ghost use Rattle.ss_state.specs.NumbersOfMeaning.{GivesStream};
ghost use Rattle.ss_vertex.specs.Arriving.{wanted};
ghost use Rattle.ss_vertex.specs.Calls.{IsFullAt, IsWantedAt, fresh_running};
ghost use Rattle.ss_vertex.specs.Inst.{held_running};
ghost use Rattle.ss_vertex.specs.Kept.{BecomesOneMore, GoesOnBehind, HasAccepted, WorksAt};
ghost use Rattle.ss_vertex.specs.Kept.{list_kept, n_kept, running_kept};
ghost use Rattle.ss_vertex.specs.Standing.{list_len};
ghost use Rattle.ss_vertex.specs.declared.work.Work.TheVariants.{Merging};

use crate::fault::ExecFault;
use crate::known::laws_of_vertices;
use crate::operating::Operating;
use ss_codec::Frame;
use ss_elem::{Element, Out};
use ss_plan::Plan;
use std::alloc::{AllocError, Global};

/// What an instance works on, by what its vertex is; `None` where it is down.
#[derive(Drop)]
pub(crate) enum Work {
    /// A list of `len` elements, of which the first `n` are accepted.
    Listing { len: u64, n: Option<u64> },
    /// The merge of the inputs.
    Merging(Option<Operating>),
}

/// What an instance of vertex `v` works on before the first element.
pub(crate) fn fresh_work(alloc: Global, plan: &Plan, v: u32) -> Result<Work, AllocError>
    requires { GivesStream (vertices_of plan.now) v }
    ensures list { IfOk result (λ work. list_kept work ≡ list_len (vertex (vertices_of plan.now) v)) }
    ensures running { IfOk result (λ work. running_kept work 0 [] ≡ Some (fresh_running plan.now v)) }
{
    plan.max_elements();
    laws_of_vertices();
    match plan.job().spec(v) {
        Some(_) => {
            let operating = Operating::fresh(alloc, plan, v)?;
            Ok(Work::Merging(Some(operating)))
        }
        None => Ok(Work::Listing {
            len: plan.source_len(v),
            n: Some(0),
        }),
    }
}

impl Work {
    /// How many elements are accepted; `None` where it is down.
    pub(crate) fn n(&self) -> Option<u64>
        ensures { HasAccepted self.now result }
    {
        match self {
            Work::Listing { n, .. } => *n,
            Work::Merging(operating) => match operating {
                Some(operating) => Some(operating.n),
                None => None,
            },
        }
    }

    /// It goes down.
    pub(crate) fn stop(&mut self)
        ensures list { list_kept self.new ≡ list_kept self.old }
        ensures down { (next : ℕ) (left : List Element) → running_kept self.new next left ≡ None }
    {
        match self {
            Work::Listing { n, .. } => *n = None,
            Work::Merging(operating) => *operating = None,
        }
    }

    /// It goes on behind the first `n` elements of its list.
    pub(crate) fn list_from(&mut self, n: u64)
        requires { IsSome (list_kept self.old) }
        ensures list { list_kept self.new ≡ list_kept self.old }
        ensures up { GoesOnBehind n self.new }
    {
        match self {
            Work::Listing { n: accepted, .. } => *accepted = Some(n),
            Work::Merging(_) => unreachable!(),
        }
    }

    /// It goes on with this operator.
    pub(crate) fn go_on(&mut self, operating: Operating)
        ensures { self.new ≡ Merging (Some operating) }
    {
        *self = Work::Merging(Some(operating));
    }

    /// The input and the number of the element that it accepts next; `None` where everything has arrived.
    pub(crate) fn wants(&self) -> Option<(u32, u64)>
        ensures { (plan : PlanText) (v next : ℕ) (left : List Element) → IsPlan plan → WorksAt plan v next left self.now
            → result ≡ wanted (vertices_of plan) v (n_kept self.now) }
    {
        laws_of_vertices();
        match self {
            Work::Listing { len, n } => match n {
                Some(n) => listed(*n, *len),
                None => None,
            },
            Work::Merging(operating) => match operating {
                Some(operating) => operating.wants(),
                None => None,
            },
        }
    }

    /// Accepts the element that it wants, of vertex `v`, where nothing is left and the next output has number `next`.
    pub(crate) fn accept(
        &mut self,
        plan: &Plan,
        v: u32,
        next: u64,
        x: &Element,
        given: &mut Out,
    ) -> Result<(), ExecFault>
        requires works { WorksAt plan.now v next [] self.old }
        requires wanted { IsWantedAt plan.now v (n_kept self.old) x.now }
        requires none { given.old.elements ≡ [] }
        ensures list { list_kept self.new ≡ list_kept self.old }
        ensures accepted { OnOk result (BecomesOneMore plan.now v next self.old self.new given.new.elements) }
        ensures within { OnOk result (IsWithin plan.now v (n_kept self.old + 1)) }
        ensures kept { OnOk result (AreKept plan.now v (n_kept self.old + 1)) }
        ensures fault { IfErr result (IsFullAt plan.now v (n_kept self.old)) }
        ensures err { OnErr result (self.new ≡ self.old) }
        ensures err_given { OnErr result (given.new.elements ≡ []) }
    {
        plan.max_elements();
        laws_of_vertices();
        match self {
            Work::Listing { n, .. } => match n {
                Some(n) => list_next(n, x, given),
                None => unreachable!(),
            },
            Work::Merging(operating) => match operating {
                Some(operating) => operating.accept(plan, v, next, x, given),
                None => unreachable!(),
            },
        }
    }

    /// The snapshot of vertex `v`, where nothing is left and the next output has number `next`.
    pub(crate) fn frame(
        &self,
        alloc: Global,
        plan: &Plan,
        v: u32,
        next: u64,
    ) -> Result<Frame, AllocError>
        requires works { WorksAt plan.now v next [] self.now }
        requires operator { IsNone (list_kept self.now) }
        ensures { IfOk result (λ f. f ≡ frame_of plan.now v (n_kept self.now)) }
    {
        match self {
            Work::Listing { .. } => unreachable!(),
            Work::Merging(operating) => match operating {
                Some(operating) => operating.frame(alloc, plan, v, next),
                None => unreachable!(),
            },
        }
    }

    /// How many entries the operator remembers; 0 at a source, and where it is down.
    pub(crate) fn held(&self) -> u64
        ensures { (next : ℕ) (left : List Element) → result ≡ held_running (running_kept self.now next left) }
    {
        match self {
            Work::Listing { .. } => 0,
            Work::Merging(operating) => match operating {
                Some(operating) => operating.oper.held(),
                None => 0,
            },
        }
    }
}

/// The number of the next element of a list of `len`, of which `n` are accepted, as that of an input 0.
fn listed(n: u64, len: u64) -> Option<(u32, u64)>
    ensures { result ≡ (if nat_lt n len then Some (0, n) else None) }
{
    if n < len { Some((0, n)) } else { None }
}

/// An element is such as the program's types keep it.
pub(crate) fn check_kept(x: &Element)
    ensures { IsKept x.now }
{
    match x {
        Element::Row(row) => {
            let _key = row.key.bytes();
            let _values = (row.a, row.b, row.c, row.d);
        }
        Element::Cti(_) => (),
        Element::End => (),
    }
}

/// Accepts the next element of a list, of which `n` are accepted.
fn list_next(n: &mut u64, x: &Element, given: &mut Out) -> Result<(), ExecFault>
    requires few { n.old < 2 ^ 63 }
    requires none { given.old.elements ≡ [] }
    ensures ok { OnOk result ((n.new ≡ n.old + 1) × (given.new.elements ≡ x.now ∷ [])) }
    ensures fault { IfErr result (λ e. e ≡ ExecFault.Memory) }
    ensures err { OnErr result (n.new ≡ n.old) }
    ensures err_given { OnErr result (given.new.elements ≡ []) }
{
    match given.reserve(1) {
        Ok(()) => (),
        Err(_) => return Err(ExecFault::Memory),
    }
    given.push(*x);
    *n += 1;
    Ok(())
}
