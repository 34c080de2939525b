ghost use Rattle.std.specs.Prelude.{◌≡◌, ◌^◌, ◌<◌, ◌≤◌, ◌++◌, true, IfOk, IfErr, Ok, OnOk, OnErr};
ghost use Rattle.std.specs.Prelude.{IsTrue, ◌↔◌};
ghost use Rattle.ss_expr.specs.Operators.{IsComputable};
ghost use Rattle.ss_image.specs.Faults.{Fails};
ghost use Rattle.ss_image.specs.Images.{image_of};
ghost use Rattle.ss_meaning.specs.Entries.{entry_count};
ghost use Rattle.ss_meaning.specs.Inputs.{least_bound};
ghost use Rattle.ss_meaning.specs.Jobs.{IsBefore};

use crate::given::{push_mark, told_rise};
use crate::kept::{Kept, count_rows, give_rows, kept_before_all, kept_of_image};
use ss_elem::{Bound, Element, Out};
use ss_expr::Spec;
use ss_image::ImageFault;
use ss_merge::Merger;
use std::alloc::{AllocError, Global};
use std::marker::Model;

/// An operator with all that it keeps between elements: what it computes, how far all its inputs have come, and what
/// it remembers.
#[derive(Drop)]
pub struct Oper {
    kept: Kept,
    low: Bound,
}

impl Model for Oper {
    ghost use Rattle.ss_oper.specs.Standing.{OperState};

    ghost Value = { OperState };

    ghost use Rattle.ss_expr.specs.contracts.stream_operator.Spec as the_spec;
    ghost use Rattle.std.specs.Coded.{codes};

    ghost coded = { Prim.hlevel (codes, the_spec.the_row.coded) };

    ghost use Rattle.ss_oper.specs.Kept.{state_of, IsKept};

    ghost view = { λ o. state_of o.kept o.low };

    ghost invariant = { λ o. IsKept o.kept };
}

impl Oper {
    ghost use Rattle.ss_oper.specs.Standing.{OperState, StandsBeforeAll, Steps, CountFew, CountsGiven};
    ghost use Rattle.ss_oper.specs.Standing.{remembered};

    /// The operator that computes this, before any element.
    pub fn new(alloc: Global, spec: &Spec) -> Result<Oper, AllocError>
        requires { IsComputable spec.now }
        ensures spec { IfOk result (λ oper. oper.spec ≡ spec.now) }
        ensures stands { IfOk result StandsBeforeAll }
    {
        let kept = kept_before_all(alloc, spec)?;
        Ok(Oper {
            kept,
            low: Bound::ZERO,
        })
    }

    /// Takes an element of this input and appends what it adds to the output: rows, and then how far all inputs have
    /// come, where that rose. The merger is the one after the element.
    ///
    /// An error is want of memory.
    pub fn step(
        &mut self,
        input: u32,
        x: &Element,
        merger: &Merger,
        out: &mut Out,
    ) -> Result<(), AllocError>
        requires early { IsBefore (2 ^ 63) x.now }
        requires few { CountFew self.old.entries }
        ensures spec { self.new.spec ≡ self.old.spec }
        ensures ok { OnOk result (Steps merger.now input x.now self.old self.new out.old.elements out.new.elements) }
        ensures err { OnErr result (self.new ≡ self.old) }
        ensures err_out { OnErr result (out.new.elements ≡ out.old.elements) }
    {
        let low = merger.low();
        give_rows(&mut self.kept, input, x, low, merger.bounds(), out)?;
        push_mark(out, told_rise(self.low, low));
        self.low = low;
        Ok(())
    }

    /// How many elements a step would give at an element of this input, without making it. The merger is the one after
    /// the element.
    pub fn count_given(&self, input: u32, x: &Element, merger: &Merger) -> u64
        requires { IsBefore (2 ^ 63) x.now }
        ensures given { CountsGiven merger.now input x.now self.now result }
        ensures few { result ≤ 2 ^ 63 }
    {
        let after = merger.low();
        let rows = count_rows(&self.kept, input, x, after, merger.bounds());
        match told_rise(self.low, after) {
            Some(_) => rows + 1,
            None => rows,
        }
    }

    /// Whether no entry of a window and no session counts 2^62 rows, so that the operator may take an element.
    pub fn counts_few(&self) -> bool
        ensures { IsTrue result ↔ CountFew self.now.entries }
    {
        match &self.kept {
            Kept::RowByRow(_) => true,
            Kept::Hopping(window) => window.counts_few(),
            Kept::Joining(_) => true,
            Kept::InSessions(session) => session.counts_few(),
            Kept::Excepting(_) => true,
        }
    }

    /// How many entries are remembered.
    pub fn held(&self) -> u64
        ensures { result ≡ entry_count self.now.entries }
    {
        match &self.kept {
            Kept::RowByRow(_) => 0,
            Kept::Hopping(window) => window.held(),
            Kept::Joining(join) => join.held(),
            Kept::InSessions(session) => session.held(),
            Kept::Excepting(except) => except.held(),
        }
    }

    /// Appends the image of what is remembered.
    ///
    /// An error is want of memory.
    pub fn image(&self, out: &mut Vec<u8>) -> Result<(), AllocError>
        requires { entry_count self.now.entries < 2 ^ 32 }
        ensures ok { OnOk result (out.new.items ≡ out.old.items ++ image_of self.now.entries) }
        ensures err { OnErr result (out.new.items ≡ out.old.items) }
    {
        match &self.kept {
            Kept::RowByRow(_) => Ok(()),
            Kept::Hopping(window) => window.image(out),
            Kept::Joining(join) => join.image(out),
            Kept::InSessions(session) => session.image(out),
            Kept::Excepting(except) => except.image(out),
        }
    }

    /// The operator whose image these bytes are, where the merge of its inputs stands so.
    pub fn of_image(
        alloc: Global,
        spec: &Spec,
        merger: &Merger,
        bytes: &[u8],
    ) -> Result<Oper, ImageFault>
        requires { IsComputable spec.now }
        ensures spec { IfOk result (λ oper. oper.spec ≡ spec.now) }
        ensures low { IfOk result (λ oper. oper.low ≡ least_bound merger.now.bounds) }
        ensures ok { IfOk result (λ oper. remembered spec.now merger.now.bounds bytes.now ≡ Ok oper.entries) }
        // Bytes that are taken are the image of what is remembered then, so no state has two images.
        ensures spelling { IfOk result (λ oper. bytes.now ≡ image_of oper.entries) }
        ensures fault { IfErr result (λ e. Fails e (remembered spec.now merger.now.bounds bytes.now)) }
    {
        let kept = kept_of_image(alloc, spec, merger, bytes)?;
        Ok(Oper {
            kept,
            low: merger.low(),
        })
    }
}
