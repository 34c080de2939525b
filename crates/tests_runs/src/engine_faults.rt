//! Acts that meet a fault.
use fixtures::{FILE, JOB, Running, S, Trouble, flush, got, make_all, meets, read, stored, write};
use ss_engine::EngineFault;
use ss_outside::DepotCall;
use ss_vault::VaultFault;
use std::test::Fail;

/// The third of these acts meets the trouble. The trace has those before it.
fn play_to_the_fault(running: &mut Running) -> Result<(), Fail> {
    let acts = [read(S, 0), write(S, 0), flush(S, 1), read(S, 0)];
    let fault = EngineFault::Vault(VaultFault::Store { count: 1 });
    let played = running.play(&acts)?;
    let made = [(read(S, 0), got(0)), (write(S, 0), stored(0))];
    let stream = running.stream(S)?;
    if played == Err(fault) && running.trace() == made.as_slice() && stream == (0, 0, 0, 1, false) {
        Ok(())
    } else {
        Err(Fail::new(format_args!("{played:?}: {stream:?}")))
    }
}

/// The vault was halted, and what doesn't ask it goes on.
fn go_on(running: &mut Running) -> Result<(), Fail> {
    meets(running, flush(S, 1), EngineFault::Vault(VaultFault::Halted))?;
    make_all(running, &[(read(S, 0), got(1))])
}

#[test]
fn a_trace_ends_before_the_fault(rt: HostRuntime) -> Result<(), Fail> {
    let trouble = Trouble::Call(DepotCall::Append, 1);
    let mut running = Running::over(rt.alloc(), JOB, &[FILE], trouble)?;
    play_to_the_fault(&mut running)?;
    go_on(&mut running)
}
