//! What events move.

ghost use Rattle.std.specs.Prelude.{◌≡◌, IfOk};
ghost use Rattle.std.specs.Option.{option_copied};
ghost use Rattle.transfer_state.specs.Routing.{routed_excerpt};
ghost use Rattle.what_if.specs.Reports.{choice_of as the_choice};
ghost use Rattle.what_if.specs.Reroutes.{rerouted, IsRerouted};

use crate::comparing::{Difference, told_after};
use crate::reports::{Refused, network_after, out_of_memory};
use crate::reroutes::{Reroute, Reroutes, is_same_choice};
use net_data::Event;
use net_versions::Version;
use point_codes::PointCode;
use route_choice::Choice;
use std::alloc::{AllocError, Global};
use transfer_state::Routing;

/// The choice of a point, none if there is no plan or no row.
fn choice_of(routing: Option<&Routing>, point: PointCode) -> Option<Choice>
    ensures { result ≡ the_choice (routed_excerpt (option_copied routing.entry)) point }
{
    match routing {
        Some(routing) => routing.choice(point),
        None => None,
    }
}

/// A reroute is told of a point whose choice differs.
impl Difference for Reroute {
    ghost use Rattle.what_if.specs.Reroutes.{reroute_between};

    ghost told = { reroute_between };

    fn add(
        before: Option<&Routing>,
        after: Option<&Routing>,
        dest: PointCode,
        point: PointCode,
        list: &mut Vec<Self>,
    ) -> Result<(), AllocError> {
        let (old, new) = (choice_of(before, point), choice_of(after, point));
        if !is_same_choice(&old, &new) {
            list.push(Reroute {
                point,
                dest,
                before: old,
                after: new,
            })?;
        }
        Ok(())
    }

    // Routings tell at once whether their statuses are the same, and not whether their choices are.
    fn is_alike(_before: &Routing, _after: Option<&Routing>) -> bool {
        false
    }

    fn stays() {}
}

/// What events move on a version's network, or out of memory.
fn make_reroutes(
    alloc: Global,
    version: &Version,
    events: &[Event],
) -> Result<Result<Reroutes, Refused>, AllocError>
    ensures { IfOk result (λ r. r ≡ rerouted version.now.network events.now) }
{
    match network_after(alloc, version, events)? {
        Ok(net) => Ok(Ok(Reroutes::from_vec(told_after(alloc, version, &net, events)?))),
        Err(refused) => Ok(Err(refused)),
    }
}

/// What a list of events would move, made one after the other on the network of a published version, which stays as it is: each
/// point whose choice towards a destination differs (own, after Q.704 clauses 6 and 7).
///
/// The first event that is refused is told. Out of memory may be told in the place of any answer.
pub fn reroutes_by(alloc: Global, version: &Version, events: &[Event]) -> Result<Reroutes, Refused>
    ensures { IsRerouted version.now.network events.now result }
{
    match make_reroutes(alloc, version, events) {
        Ok(answer) => answer,
        Err(_) => Err(out_of_memory()),
    }
}
