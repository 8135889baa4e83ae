//! Events applied to a network.

ghost use Rattle.std.specs.Prelude.{◌≡◌, ◌≢◌, Ok, Err, IfErr, IfOk, MatchOption, OnOk};
ghost use Rattle.net_data.specs.declared.events.Refusal.{Refusal};
ghost use Rattle.net_data.specs.Edits.{apply_all};

use net_data::{Event, Net, Refusal};
use std::alloc::{AllocError, Global};

/// Applies each event in turn, up to the first refusal.
///
/// # Errors
///
/// The first refusal: that of the network's rules, or `OutOfMemory` if memory is refused. The events before it stay applied,
/// which no clause says.
pub fn apply_events(alloc: Global, net: &mut Net, events: Vec<Event>) -> Result<(), Refusal>
    ensures ok { OnOk result (apply_all net.old events.items ≡ Ok net.new) }
    ensures err { IfErr result (λ e. e ≢ Refusal.OutOfMemory → apply_all net.old events.items ≡ Err e) }
{
    for event in events {
        net.apply_owned(alloc, event)?;
    }
    Ok(())
}

/// Applies each event in turn, up to the first refusal, which is given back: that of the network's rules. The events before it
/// stay applied, which no clause says.
///
/// # Errors
///
/// `AllocError` if memory is refused.
pub fn apply_each(
    alloc: Global,
    net: &mut Net,
    events: &[Event],
) -> Result<Option<Refusal>, AllocError>
    ensures { IfOk result (λ o. MatchOption o (apply_all net.old events.now ≡ Ok net.new) (λ e. apply_all net.old events.now ≡ Err e)) }
{
    for event in events {
        match net.apply(alloc, event) {
            Ok(()) => {}
            Err(Refusal::OutOfMemory) => return Err(AllocError),
            Err(refusal) => return Ok(Some(refusal)),
        }
    }
    Ok(None)
}
