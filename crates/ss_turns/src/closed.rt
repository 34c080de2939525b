//! The slots once no thread shares them any more.
ghost use Rattle.std.specs.Prelude.{◌≡◌, ◌+◌, ◌<◌, true, false, [], length, replicate, slice_index_or, slice_set};
ghost use Rattle.std.specs.Prelude.{is_some, Some, IfSome};

use crate::law::{Law, Opening};
use crate::member::Member;
use crate::pass::Pass;
use crate::view::View;
use atomic_table::{Closed as Slots, Table};
use std::alloc::Global;
use std::marker::Model;
use std::snapshot::Snapshot;

/// What was at home at the close. The other values are dropped with it.
pub struct Closed<V: Member> {
    slots: Slots<Option<V>, Global>,
    pass: Snapshot<Pass<V>>,
}

impl<V: Member> Model for Closed<V> {
    ghost use Rattle.std.specs.Mem.Slots.{slots_items, IsFull};
    ghost use Rattle.ss_turns.specs.Values.{ClosedValue};
    ghost use Rattle.ss_turns.specs.Stands.{at_home, Stands};

    ghost Value = { ClosedValue V.Plan };

    ghost view = { λ c. record {
      plan = c.pass.value.view.plan;
      there = at_home (slots_items c.slots.words) (slots_items c.slots.slots);
    } };

    ghost invariant = { λ c. IsFull c.slots.words × IsFull c.slots.slots
        × Stands V.place V.plan c.pass.value.view.plan (slots_items c.slots.words) (slots_items c.slots.slots) };
}

impl<V: Member> Closed<V> {
    pub(crate) fn of(
        table: Table<Option<V>, View<V::Plan>, Opening<V>, Law<V>, Global>,
        pass: Pass<V>,
    ) -> Closed<V>
        requires pass { pass.of ≡ table.shared.table_id }
        requires words { table.shared.table_id.words ≡ table.shared.table_id.slots + 1 }
        requires free { pass.view.has ≡ [] }
        ensures plan { result.plan ≡ pass.view.plan }
        ensures slots { length result.there ≡ table.shared.table_id.slots }
        ensures whole { pass.view.share ≡ table.shared.key.passes
            → result.there ≡ replicate table.shared.table_id.slots true }
        ensures stop { pass.view.share ≡ table.shared.key.passes → 0 < pass.view.heard → 0 < pass.view.stops }
    {
        let seen = Snapshot::of(&pass);
        let Pass { seat, held: _ } = pass;
        Closed {
            slots: table.close_with(seat),
            pass: seen,
        }
    }

    /// The value of a slot, once. `None` where the slot's turn was taken at the close, or the value was given out.
    pub fn value(&mut self, slot: u32) -> Option<V>
        requires { slot < length self.old.there }
        ensures there { is_some result ≡ slice_index_or self.old.there slot false }
        ensures value { IfSome result (λ x. (V.place x ≡ slot) × (self.old.plan ≡ Some (V.plan x))) }
        ensures rest { self.new ≡ record self.old { there = slice_set self.old.there slot false } }
    {
        let slot = slot as usize;
        if self.slots.word(slot) != 0 {
            return None;
        }
        let value = self.slots.take(slot);
        self.slots.slots.put(slot, None);
        value
    }
}

impl<V: Member> Drop for Closed<V> {
    fn drop(self) {
        let Closed { mut slots, pass: _ } = self;
        let mut next = 0;
        'slots: while next < slots.slot_count() {
            drop(slots.take(next));
            next += 1;
        }
        slots.free();
    }
}
