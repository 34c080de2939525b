//! What a thread takes and gives with.
ghost use Rattle.std.specs.Prelude.{◌≡◌, ℕ, ◌<◌, ◌∷◌, drop};
ghost use Rattle.std.specs.VecDeque.{deque_capacity};
ghost use Rattle.ss_turns.specs.View.{times};
ghost use Rattle.ss_turns.specs.Fits.{emptied};

use crate::member::Member;
use crate::view::View;
use atomic_table::Seat;
use std::collections::VecDeque;
use std::marker::Model;

/// The right to take from some turns. It counts its takes, keeps a record of each slot, and has a share of at least 1.
#[derive(Drop)]
pub struct Pass<V: Member> {
    pub(crate) seat: Seat<Option<V>, View<V::Plan>>,
    // The slots that the pass has, in the order in which the seat has them out.
    pub(crate) held: VecDeque<u32>,
}

impl<V: Member> Model for Pass<V> {
    ghost use Rattle.std.specs.VecDeque.{deque_capacity};
    ghost use Rattle.ss_turns.specs.Values.{PassValue};
    ghost use Rattle.ss_turns.specs.Fits.{Fits};

    ghost Value = { PassValue V.Plan };

    ghost view = { λ p. record { of = p.seat.table_id; view = p.seat.me.0 } };

    ghost invariant = { λ p. Fits p.seat.me.1 p.seat.me.0 p.seat.table_id.slots p.held.items (deque_capacity p.held) };
}

/// Brings the slot to the front, in the seat and among the slots held.
pub(crate) fn bring<T, P>(seat: &mut Seat<Option<T>, View<P>>, held: &mut VecDeque<u32>, slot: u32)
    requires order { seat.old.me.1 ≡ emptied held.old.items }
    requires held { 0 < times slot held.old.items }
    ensures seat { (seat.new.table_id ≡ seat.old.table_id) × (seat.new.id ≡ seat.old.id)
        × (seat.new.me.0 ≡ seat.old.me.0) }
    ensures order { seat.new.me.1 ≡ emptied held.new.items }
    ensures first { held.new.items ≡ slot ∷ drop 1 held.new.items }
    ensures same { (k : ℕ) → times k held.new.items ≡ times k held.old.items }
    ensures room { deque_capacity held.new ≡ deque_capacity held.old }
{
    'turns: while held[0] != slot {
        seat.turn();
        held.rotate_left(1);
    }
}
