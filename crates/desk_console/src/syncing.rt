//! Bringing a desk up to date.

ghost use Rattle.std.specs.Prelude.{◌≡◌, ◌<◌, [], None, Some, IfOk, OnOk, OnErr};
ghost use Rattle.desk_core.specs.Desk.{accepted};
ghost use Rattle.desk_core.specs.Steps.{tasks_left, target_number};
ghost use Rattle.desk_core.specs.Runs.{IsRunOf};
ghost use Rattle.desk_console.specs.Settling.{HasOnlyTasks, out_count, waiting_count};
ghost use Rattle.desk_console.specs.Syncing.{synced, without_target, HasKept};

use desk_core::{Desk, Refusal};
use std::alloc::{AllocError, Global};
use work_units::settle;

/// Brings a desk up to date, an open target by the calls that any worker makes, and then what is newer at once, and tells the number of
/// the published version: that of the last accepted event. It fails if memory is refused; nothing that was accepted is lost
/// then. Either way a run of the desk's steps leads there, which accepts nothing.
pub fn sync(alloc: Global, desk: &mut Desk) -> Result<u64, AllocError>
    ensures ok { IfOk result (λ number. (number ≡ accepted desk.old) × (desk.new ≡ synced desk.old)) }
    ensures published { IfOk result (λ number. desk.new.published.number ≡ number) }
    ensures err { OnErr result (HasKept desk.old desk.new) }
    ensures run { IsRunOf desk.old [] desk.new }
{
    desk.steady();
    close(alloc, desk)?;
    desk.publish_at_once(alloc)?;
    Ok(desk.published().number())
}

/// Publishes the open target, if there is one.
fn close(alloc: Global, desk: &mut Desk) -> Result<(), AllocError>
    ensures ok { OnOk result (desk.new ≡ without_target desk.old) }
    ensures err { OnErr result (HasOnlyTasks desk.old desk.new) }
    ensures run { IsRunOf desk.old [] desk.new }
{
    let Some(number) = desk.target() else {
        return Ok(());
    };
    call_back(desk, number);
    settle_all(alloc, desk)?;
    match desk.publish(alloc) {
        Ok(_) => Ok(()),
        Err(refusal) => Err(want_of_memory(refusal)),
    }
}

/// Abandons the destinations that are out, in rising code. It takes no memory.
fn call_back(desk: &mut Desk, number: u64)
    requires { target_number desk.old ≡ Some number }
    ensures only { HasOnlyTasks desk.old desk.new }
    ensures none { out_count desk.new ≡ 0 }
    ensures run { IsRunOf desk.old [] desk.new }
{
    while let Some(dest) = desk.first_out() {
        match desk.abandon(number, dest) {
            Ok(()) => {}
            Err(_) => unreachable!(),
        }
    }
}

/// Settles all that waits, if nothing is out.
fn settle_all(alloc: Global, desk: &mut Desk) -> Result<(), AllocError>
    requires { out_count desk.old ≡ 0 }
    ensures only { HasOnlyTasks desk.old desk.new }
    ensures done { OnOk result (tasks_left desk.new ≡ 0) }
    ensures run { IsRunOf desk.old [] desk.new }
{
    while desk.has_waiting() {
        settle_next(alloc, desk)?;
    }
    Ok(())
}

/// Settles the first that waits, if nothing is out.
fn settle_next(alloc: Global, desk: &mut Desk) -> Result<(), AllocError>
    requires none { out_count desk.old ≡ 0 }
    requires some { 0 < waiting_count desk.old }
    ensures only { HasOnlyTasks desk.old desk.new }
    ensures none { OnOk result (out_count desk.new ≡ 0) }
    ensures fewer { OnOk result (waiting_count desk.new < waiting_count desk.old) }
    ensures run { IsRunOf desk.old [] desk.new }
{
    let job = match desk.take() {
        Ok(job) => job,
        Err(refusal) => return Err(want_of_memory(refusal)),
    };
    let settled = match settle(alloc, job) {
        Ok(settled) => settled,
        Err((_, refused)) => return Err(refused),
    };
    match desk.give_own(settled) {
        Ok(()) => Ok(()),
        Err(_) => unreachable!(),
    }
}

/// The one refusal that comes: memory was refused.
fn want_of_memory(refusal: Refusal) -> AllocError
    requires { refusal ≡ Refusal.OutOfMemory }
{
    match refusal {
        Refusal::OutOfMemory => AllocError,
        _ => unreachable!(),
    }
}
