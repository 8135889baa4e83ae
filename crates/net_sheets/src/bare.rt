//! Plans without rows, added to a network.

ghost use Rattle.std.specs.Prelude.{◌≡◌, ◌≢◌, ◌==◌, ◌∷◌, [], false, option_map, IfErr, OnOk};
ghost use Rattle.std.specs.List.{list_any};
ghost use Rattle.net_building.specs.Building.{plan_event as the_event};
ghost use Rattle.net_sheets.specs.About.{bare_plan};
ghost use Rattle.net_sheets.specs.Events.{Leads, AddsBare};
ghost use Rattle.net_sheets.specs.Faults.{IsOneBareFault, IsBareFault};

use crate::about::spot_of_value;
use crate::building::refused;
use crate::faults::{Reason, SpotFault};
use crate::plans::{apply_one, plan_event};
use net_data::Net;
use plan_rows::uses::is_in;
use point_codes::PointCode;
use std::alloc::Global;

/// Adds a plan without rows, behind those of some destinations.
fn add_one(
    alloc: Global,
    net: &mut Net,
    before: &[PointCode],
    dest: PointCode,
) -> Result<(), Reason>
    ensures fresh { OnOk result (list_any (λ other. other == dest) before.now ≡ false) }
    ensures ok { OnOk result (Leads net.old (the_event (bare_plan dest) ∷ []) net.new) }
    ensures err { IfErr result (IsOneBareFault net.old dest) }
{
    if is_in(before, dest) {
        return Err(Reason::PlanThere);
    }
    let event = plan_event(alloc, dest, Vec::new(alloc))?;
    match apply_one(alloc, net, event) {
        Ok(()) => Ok(()),
        Err(refusal) => Err(refused(refusal)),
    }
}

/// Adds the plans without rows of these destinations, which stand in the table of a network with this text.
pub(crate) fn add_bare(
    alloc: Global,
    net: &mut Net,
    text: Option<&[u8]>,
    bare: &[PointCode],
) -> Result<(), SpotFault>
    ensures ok { OnOk result (AddsBare net.old bare.now net.new) }
    ensures err { IfErr result (λ fault. IsBareFault net.old bare.now fault.reason) }
{
    for (i, dest) in bare.iter().enumerate() {
        if let Err(reason) = add_one(alloc, net, &bare[..i], *dest) {
            let spot = spot_of_value(alloc, text, i);
            return Err(SpotFault { spot, reason });
        }
    }
    Ok(())
}
