//! The rule that the table keeps at every moment.
ghost use Rattle.std.specs.Prelude.{Some};
ghost use Rattle.ss_turns.specs.View.{fresh};
ghost use Rattle.ss_turns.specs.Rule.{Kept};

use crate::member::Member;
use crate::view::View;
use atomic_table::TableRule;
use std::marker::PhantomData;
use std::snapshot::Snapshot;

// What the table is told once: a value of the plan, and the number of shares.
#[derive(Drop)]
pub(crate) struct Opening<V> {
    pub(crate) of: Snapshot<V>,
    pub(crate) passes: u32,
}

// The rule of `specs/Rule.antt`, for the values and the plan of one table.
pub(crate) struct Law<V> {
    marker: PhantomData<V>,
}

impl<V: Member> TableRule<Option<V>, View<V::Plan>, Opening<V>> for Law<V> {
    ghost holds = { λ k. Kept V.place V.plan (V.plan k.of.value) k.passes };

    ghost first = { λ k. fresh (Some (V.plan k.of.value)) k.passes };
}
