//! The numbers by which a pass keeps a record of a part.
ghost use Rattle.std.specs.Prelude.{◌≡◌, ◌+◌, ◌<◌, ◌≤◌, length};
ghost use Rattle.ss_crew.specs.Rows.{Three, inst_row as inst_row_of, put_three, stored_row, tail_row as tail_row_of};
ghost use Rattle.ss_crew.specs.Rows.{have_ended as have_ended_of, vault_head as vault_head_of};
ghost use Rattle.ss_crew.specs.Rows.{vault_row as vault_row_of};
ghost use Rattle.ss_frames.specs.Plans.{plan_numbers};
ghost use Rattle.ss_state.specs.Numbers.{vertex};
ghost use Rattle.ss_vault.specs.Sound.{Sound};
ghost use Rattle.ss_vault.specs.Told.{durable_of, vault_told};
ghost use Rattle.ss_vertex.specs.Inst.{inst_numbers};

use ss_engine::vertex_count;
use ss_outside::{Depot, Outputs};
use ss_plan::Plan;
use ss_tail::Tail;
use ss_vault::{Vault, plan_facts};
use ss_vertex::Inst;
use ss_water::Kind;

/// The numbers of a tail.
pub(crate) fn tail_row(tail: &Tail) -> [u64; 104]
    ensures { result ≡ tail_row_of tail.now.numbers }
{
    let mut row = [0; 104];
    row[0] = tail.from();
    row[1] = tail.end();
    row[2] = tail.seen();
    row[3] = u64::from(tail.torn());
    row[4] = tail.stored();
    row
}

/// The numbers of a replica that knows of this snapshot as the newest.
pub(crate) fn inst_row(inst: &Inst, last: u64) -> [u64; 104]
    ensures { result ≡ inst_row_of (inst_numbers inst.now) last }
{
    let mut row = [0; 104];
    row[0] = u64::from(inst.is_up());
    row[1] = inst.n();
    row[2] = inst.left();
    row[3] = last;
    row
}

/// The numbers of the vault.
pub(crate) fn vault_row<O: Outputs, D: Depot>(plan: &Plan, vault: &Vault<O, D>) -> [u64; 104]
    requires { Sound plan.now (vault_told O.told D.told vault.now) }
    ensures { result ≡ vault_row_of (plan_numbers plan.now) (vault_told O.told D.told vault.now) }
{
    plan_facts(plan);
    let mut row = vault_head(plan, vault);
    'vertices: for v in 0..vertex_count(plan) {
        put(&mut row, 8 + 3 * v as usize, stored(plan, vault, v));
    }
    row
}

/// The numbers of the vault that belong to no vertex.
fn vault_head<O: Outputs, D: Depot>(plan: &Plan, vault: &Vault<O, D>) -> [u64; 104]
    requires { Sound plan.now (vault_told O.told D.told vault.now) }
    ensures { result ≡ vault_head_of (plan_numbers plan.now) (vault_told O.told D.told vault.now) }
{
    let counts = vault.counts();
    let mut row = [0; 104];
    row[0] = vault.entries();
    row[1] = vault.since();
    row[2] = u64::from(vault.halted().is_some());
    row[3] = u64::from(have_ended(plan, vault));
    row[4] = counts.faults;
    row[5] = counts.shorts;
    row[6] = counts.output_faults;
    row
}

/// Whether every sink has put its whole stream.
pub(crate) fn have_ended<O: Outputs, D: Depot>(plan: &Plan, vault: &Vault<O, D>) -> bool
    requires { Sound plan.now (vault_told O.told D.told vault.now) }
    ensures { result ≡ have_ended_of (plan_numbers plan.now) (vault_told O.told D.told vault.now) }
{
    plan_facts(plan);
    vault.all_ended()
}

/// What the vault tells of vertex `v`.
fn stored<O: Outputs, D: Depot>(plan: &Plan, vault: &Vault<O, D>, v: u32) -> (u64, u64, u64)
    requires sound { Sound plan.now (vault_told O.told D.told vault.now) }
    requires vertex { v < length (plan_numbers plan.now).vertices }
    ensures { record { first = result.0; second = result.1; third = result.2 }
        ≡ stored_row (vertex (plan_numbers plan.now) v) (durable_of (vault_told O.told D.told vault.now) v) }
{
    plan_facts(plan);
    match plan.job().graph().node(v).kind {
        Kind::Source => (vault.base(v), vault.dur(v), vault.mark(v)),
        Kind::Inner => (vault.base(v), vault.dur(v), vault.low(v)),
        Kind::Sink => (vault.taken(v), 0, 0),
    }
}

/// Puts three numbers into the places from `at` on.
fn put(row: &mut [u64; 104], place: usize, numbers: (u64, u64, u64))
    requires { place + 2 < 104 }
    ensures { row.new ≡ put_three row.old place (record { first = numbers.0; second = numbers.1; third = numbers.2 }) }
{
    row[place] = numbers.0;
    row[place + 1] = numbers.1;
    row[place + 2] = numbers.2;
}
