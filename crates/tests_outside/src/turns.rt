//! Slots taken and given back, by one thread and by two.
ghost use Rattle.std.specs.Prelude.{◌≡◌, ℕ, ◌<◌, ◌≤◌, [], ◌∷◌, replicate, slice_set, Some, IfOk};
ghost use Rattle.ss_turns.specs.Values.{IsPassOf};

use ss_turns::{Member, Pass, Turns};
use std::alloc::{AllocError, Global};
use std::test::Fail;
use std::thread::{Threads, join, yield_now};

#[derive(Drop)]
struct Counter {
    place: u32,
    count: u64,
}

impl Member for Counter {
    type Plan = ();

    ghost plan = { λ _. tt };

    ghost place = { λ c. c.place };

    ghost numbers = { λ c. slice_set (replicate 104 0) 0 c.count };

    fn place(&self) -> u32 {
        self.place
    }

    fn numbers(&self) -> [u64; 104] {
        let mut numbers = [0; 104];
        numbers[0] = self.count;
        numbers
    }
}

// Counters at the places 0 and 1.
fn counters(alloc: Global, first: u64, second: u64) -> Result<Vec<Counter>, AllocError>
    ensures { IfOk result (λ v. v.items
        ≡ record { place = 0; count = first } ∷ record { place = 1; count = second } ∷ []) }
{
    let mut counters = Vec::new(alloc);
    counters.push(Counter {
        place: 0,
        count: first,
    })?;
    counters.push(Counter {
        place: 1,
        count: second,
    })?;
    Ok(counters)
}

// Adds 1 to each value that it can take, slot after slot, and says how many it could take.
fn count_up(turns: &Turns<Counter>, mut pass: Pass<Counter>, rounds: u32) -> (Pass<Counter>, u64)
    requires pass { IsPassOf turns.now pass }
    requires slots { turns.now.of.slots ≡ 2 }
    requires free { pass.view.has ≡ [] }
    requires plan { pass.view.plan ≡ Some tt }
    ensures pass { IsPassOf turns.now result.0 }
    ensures free { result.0.view.has ≡ [] }
    ensures counted { result.1 ≤ rounds }
{
    let mut counted = 0;
    for round in 0..rounds {
        let slot = round % 2;
        if let Some(mut value) = turns.take(&mut pass, slot) {
            value.count = value.count.wrapping_add(1);
            turns.give(&mut pass, slot, value);
            counted += 1;
        }
        yield_now();
    }
    (pass, counted)
}

fn may_be_shared<T: Sync>(_of: &T) {}

fn may_be_sent<T: Send>(_of: &T) {}

// Turns and passes cross threads wherever their values may be sent, also where these may not be shared.
fn cross_threads<V: Member + Send>(turns: &Turns<V>, pass: &Pass<V>) {
    may_be_shared(turns);
    may_be_sent(turns);
    may_be_sent(pass);
}

// Each pass counts up in a thread of its own.
fn count_up_beside<R: Threads>(
    rt: &R,
    turns: &Turns<Counter>,
    first: Pass<Counter>,
    second: Pass<Counter>,
) -> ((Pass<Counter>, u64), (Pass<Counter>, u64))
    requires slots { turns.now.of.slots ≡ 2 }
    requires first { IsPassOf turns.now first × (first.view.has ≡ []) × (first.view.plan ≡ Some tt) }
    requires second { IsPassOf turns.now second × (second.view.has ≡ []) × (second.view.plan ≡ Some tt) }
    ensures first { IsPassOf turns.now result.0.0 × (result.0.0.view.has ≡ []) × (result.0.1 ≤ 20000) }
    ensures second { IsPassOf turns.now result.1.0 × (result.1.0.view.has ≡ []) × (result.1.1 ≤ 20000) }
{
    join(
        rt,
        || -> (Pass<Counter>, u64)
            requires { (turns.now.of.slots ≡ 2) × IsPassOf turns.now first
                × (first.view.has ≡ []) × (first.view.plan ≡ Some tt) }
            ensures { IsPassOf turns.entry.now result.0 × (result.0.view.has ≡ []) × (result.1 ≤ 20000) }
        { count_up(turns, first, 20000) },
        || -> (Pass<Counter>, u64)
            requires { (turns.now.of.slots ≡ 2) × IsPassOf turns.now second
                × (second.view.has ≡ []) × (second.view.plan ≡ Some tt) }
            ensures { IsPassOf turns.entry.now result.0 × (result.0.view.has ≡ []) × (result.1 ≤ 20000) }
        { count_up(turns, second, 20000) },
    )
}

#[test]
fn a_taken_slot_is_refused_until_it_is_given_back(rt: HostRuntime) -> Result<(), Fail> {
    let values = counters(rt.alloc(), 5, 7)?;
    assert!(rt; values[1].place() == 1 && values[1].numbers()[0] == 7);
    let Ok((turns, mut first)) = Turns::of(rt.alloc(), values, 2) else {
        panic!(rt; "no memory")
    };
    let mut second = turns.split(rt.alloc(), &mut first)?;
    let Some(value) = turns.take(&mut first, 0) else {
        panic!(rt; "the slot is at home")
    };
    assert!(rt; value.count == 5);
    assert!(rt; turns.take(&mut second, 0).is_none());
    turns.give(&mut first, 0, value);
    let Some(value) = turns.take(&mut second, 0) else {
        panic!(rt; "the slot was given back")
    };
    turns.give(&mut second, 0, value);
    Ok(())
}

#[test]
fn turns_that_are_closed_give_each_value_once(rt: HostRuntime) -> Result<(), Fail> {
    let values = counters(rt.alloc(), 5, 7)?;
    let Ok((turns, mut first)) = Turns::of(rt.alloc(), values, 2) else {
        panic!(rt; "no memory")
    };
    let mut second = turns.split(rt.alloc(), &mut first)?;
    assert!(rt; !turns.stopped(&mut first) && !turns.stopped(&mut second));
    turns.stop(&mut second);
    assert!(rt; turns.stopped(&mut first));
    turns.join(&mut first, second);
    let mut closed = turns.close(first);
    assert!(rt; closed.value(0).map(|v| v.count) == Some(5));
    assert!(rt; closed.value(1).map(|v| v.count) == Some(7));
    assert!(rt; closed.value(0).is_none() && closed.value(1).is_none());
    Ok(())
}

#[test]
fn two_threads_count_in_the_same_slots(rt: HostRuntime) -> Result<(), Fail> {
    let values = counters(rt.alloc(), 0, 0)?;
    let Ok((turns, mut first)) = Turns::of(rt.alloc(), values, 2) else {
        panic!(rt; "no memory")
    };
    let second = turns.split(rt.alloc(), &mut first)?;
    cross_threads(&turns, &second);
    let ((mut first, mine), (second, theirs)) = count_up_beside(&rt, &turns, first, second);
    turns.join(&mut first, second);
    let mut closed = turns.close(first);
    let (Some(left), Some(right)) = (closed.value(0), closed.value(1)) else {
        panic!(rt; "every value is at home")
    };
    assert!(rt; left.place == 0 && right.place == 1);
    assert!(rt; left.count.wrapping_add(right.count) == mine + theirs);
    assert!(rt; closed.value(0).is_none() && closed.value(1).is_none());
    Ok(())
}
