//! Gates, passed by one thread and by two.
use ss_outside::{Gate, Meet, Open, Place};
use std::test::Fail;
use std::thread::{Threads, join};

fn may_be_shared<T: Sync>(_of: &T) {}

// The worker has the tail of v.
fn holds_tail<G: Gate>(gate: &G, worker: u32, v: u32) {
    gate.at(worker, Place::TailHeld { v });
}

// Two threads pass the gate, each once: with a number of a worker, and the vertex whose tail it has.
fn pass_by_two<R: Threads, G: Gate + Sync>(rt: &R, gate: &G, one: (u32, u32), other: (u32, u32)) {
    join(
        rt,
        || holds_tail(gate, one.0, one.1),
        || holds_tail(gate, other.0, other.1),
    );
}

#[test]
fn an_open_gate_holds_nobody(rt: HostRuntime) -> Result<(), Fail> {
    may_be_shared(&Open);
    holds_tail(&Open, 0, 3);
    pass_by_two(&rt, &Open, (0, 3), (1, 4));
    Ok(())
}

/// Each of the workers 0 to 7 comes once more than the one before, and worker 8 has no count.
#[test]
fn visits_are_counted_for_eight_workers(rt: HostRuntime) -> Result<(), Fail> {
    let meet = Meet::new(0);
    may_be_shared(&meet);
    for worker in 0..10u32 {
        for v in 0..worker {
            holds_tail(&meet, worker, v);
        }
    }
    for worker in 0..8u32 {
        assert_eq!(rt; meet.calls(worker), worker as u64);
    }
    assert_eq!(rt;
        (meet.calls(8), meet.calls(9), meet.calls(u32::MAX)),
        (0, 0, 0)
    );
    Ok(())
}

#[test]
fn with_no_turns_nobody_is_held_or_met(rt: HostRuntime) -> Result<(), Fail> {
    let meet = Meet::new(0);
    pass_by_two(&rt, &meet, (0, 3), (1, 4));
    assert!(rt; !meet.met());
    assert_eq!(rt; (meet.calls(0), meet.calls(1)), (1, 1));
    Ok(())
}

/// The first worker is let go when its looks are spent. Who comes later meets nobody, and isn't held.
#[test]
fn the_first_worker_is_let_go_in_the_end(rt: HostRuntime) -> Result<(), Fail> {
    let meet = Meet::new(3);
    holds_tail(&meet, 0, 3);
    holds_tail(&meet, 1, 4);
    holds_tail(&meet, 0, 5);
    assert!(rt; !meet.met());
    assert_eq!(rt; (meet.calls(0), meet.calls(1)), (2, 1));
    Ok(())
}

/// Whichever of the two comes first is held until the other comes.
#[test]
fn two_threads_meet_at_two_tails(rt: HostRuntime) -> Result<(), Fail> {
    let meet = Meet::new(10_000_000);
    pass_by_two(&rt, &meet, (0, 3), (1, 4));
    assert!(rt; meet.met());
    assert_eq!(rt; (meet.calls(0), meet.calls(1), meet.calls(2)), (1, 1, 0));
    holds_tail(&meet, 2, 5);
    assert!(rt; meet.met());
    Ok(())
}

/// Workers beyond the counted ones meet too.
#[test]
fn workers_without_a_count_meet(rt: HostRuntime) -> Result<(), Fail> {
    let meet = Meet::new(10_000_000);
    pass_by_two(&rt, &meet, (8, 3), (u32::MAX, u32::MAX));
    assert!(rt; meet.met());
    assert_eq!(rt; (meet.calls(8), meet.calls(u32::MAX)), (0, 0));
    Ok(())
}

#[test]
fn the_same_tail_is_no_meeting(rt: HostRuntime) -> Result<(), Fail> {
    let meet = Meet::new(1000);
    pass_by_two(&rt, &meet, (0, 3), (1, 3));
    assert!(rt; !meet.met());
    assert_eq!(rt; (meet.calls(0), meet.calls(1)), (1, 1));
    Ok(())
}

#[test]
fn the_same_worker_is_no_meeting(rt: HostRuntime) -> Result<(), Fail> {
    let meet = Meet::new(1000);
    pass_by_two(&rt, &meet, (5, 3), (5, 4));
    assert!(rt; !meet.met());
    assert_eq!(rt; meet.calls(5), 2);
    Ok(())
}
