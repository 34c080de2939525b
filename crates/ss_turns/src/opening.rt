//! The memory for the turns, and the way of the values into their slots.
ghost use Rattle.std.specs.Prelude.{◌≡◌, ◌+◌, ◌≤◌, ◌^◌, ◌<◌, [], map, vec_len, vec_capacity, replicate, Some, IfOk};
ghost use Rattle.std.specs.List.{filter_map};
ghost use Rattle.std.specs.VecDeque.{deque_capacity};

use std::alloc::{AllocError, Global};
use std::collections::VecDeque;

/// The memory for the turns of some slots and for the pass that comes with them.
pub(crate) struct Room<V> {
    pub(crate) words: Vec<u64>,
    pub(crate) slots: Vec<Option<V>>,
    pub(crate) held: VecDeque<u32>,
}

impl<V> Room<V> {
    pub(crate) fn of(alloc: Global, count: usize) -> Result<Room<V>, AllocError>
        ensures words { IfOk result (λ r. r.words.items ≡ replicate (count + 1) 0) }
        ensures slots { IfOk result (λ r. (r.slots.items ≡ []) × (count ≤ vec_capacity r.slots)) }
        ensures held { IfOk result (λ r. (r.held.items ≡ []) × (count ≤ deque_capacity r.held)) }
    {
        // No memory has this many words.
        if count >= 1 << 60 {
            return Err(AllocError);
        }
        let words = vec![in alloc; 0u64; count + 1]?;
        let held = VecDeque::with_capacity(alloc, count)?;
        let slots = Vec::with_capacity(alloc, count)?;
        Ok(Room { words, slots, held })
    }
}

/// Moves all values into slots, in their order.
pub(crate) fn move_in<V>(values: &mut Vec<V>, slots: &mut Vec<Option<V>>)
    requires empty { slots.old.items ≡ [] }
    requires room { vec_len values.old ≤ vec_capacity slots.old }
    ensures slots { slots.new.items ≡ map Some values.old.items }
    ensures values { values.new.items ≡ [] }
    ensures room { vec_capacity values.new ≡ vec_capacity values.old }
{
    'values: while let Some(value) = values.pop() {
        slots.push_reserved(Some(value));
    }
    slots.reverse();
}

/// Moves the values back out of their slots, in their order.
pub(crate) fn move_back<V>(mut slots: Vec<Option<V>>, values: &mut Vec<V>)
    requires empty { values.old.items ≡ [] }
    requires room { vec_len slots ≤ vec_capacity values.old }
    ensures { values.new.items ≡ filter_map (λ slot. slot) slots.items }
{
    'slots: while let Some(slot) = slots.pop() {
        if let Some(value) = slot {
            values.push_reserved(value);
        }
    }
    slots.destroy_empty();
    values.reverse();
}
