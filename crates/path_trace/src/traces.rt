//! The trace.

ghost use Rattle.std.specs.Prelude.{◌≡◌, ◌<◌, ◌*◌, IfOk, Some};
ghost use Rattle.profile.specs.Traces.{hops_in, hops_within};
ghost use Rattle.excerpts.specs.Excerpt.{source_of};
ghost use Rattle.path_trace.specs.Traces.{trace_at, trace_by as trace_from, trace_kept, IsTraceAnswer, IsTold};

use crate::faults::TraceFault;
use net_versions::Version;
use point_codes::PointCode;
use profile::{Hops, Trace};
use std::alloc::{AllocError, Global};
use transfer_state::Routing;

/// The hops from a point to the destination of a routing: stopped if there is no next one, or where twice the rank of
/// them don't suffice.
fn follow(
    alloc: Global,
    routing: &Routing,
    start: PointCode,
    s: u8,
    rank: u8,
) -> Result<Trace, AllocError>
    requires { s < 16 }
    ensures { IfOk result (λ trace. hops_in trace ≡ hops_within (source_of routing.now.excerpt) (2 * rank) start s) }
{
    let dest = routing.dest();
    let mut hops = Vec::new(alloc);
    let mut point = start;
    let mut left = 2 * u16::from(rank);
    while point != dest {
        if left == 0 {
            return Ok(Trace::Stopped);
        }
        let next = match routing.hop(point, s) {
            Some(hop) => hop,
            None => return Ok(Trace::Stopped),
        };
        point = next.to;
        hops.push(next)?;
        left -= 1;
    }
    Ok(Trace::Reached(Hops::from_vec(hops)))
}

/// The trace of a signalling link selection from a point, by a routing.
fn trace_by(alloc: Global, routing: &Routing, point: PointCode, s: u8) -> Result<Trace, TraceFault>
    requires { s < 16 }
    ensures { IsTraceAnswer (trace_from routing.now.excerpt point s) result }
{
    let rank = match routing.excerpt().row(point) {
        Some(row) => row.rank,
        None => return Err(TraceFault::NoRow),
    };
    match follow(alloc, routing, point, s, rank) {
        Ok(trace) => Ok(trace),
        Err(_) => Err(TraceFault::OutOfMemory),
    }
}

/// The trace of a signalling link selection `s`, 0 to 15, from a point to a destination through a published version: the
/// links that it follows, or that it stops (Q.704 clause 2.3). It is refused if the destination has no plan, and then
/// if the point has no row; out of memory comes last.
///
/// - `answer`: the trace is the profile's, for the version's network.
/// - `kept`: it is the one that the choices kept by the version give.
/// - `law`: if it stops the status of the point is prohibited. Else its hops lead from the point to the destination,
///   and are at most twice the rank.
pub fn trace(
    alloc: Global,
    version: &Version,
    point: PointCode,
    dest: PointCode,
    s: u8,
) -> Result<Trace, TraceFault>
    requires { s < 16 }
    ensures answer { IsTraceAnswer (trace_at version.now.network point dest s) result }
    ensures kept { IsTraceAnswer (trace_kept version.now point dest s) result }
    ensures law { IfOk result (IsTold version.now.network point dest) }
{
    // The proof reads from this that what is kept is right.
    version.validity();
    let routing = match version.routing(dest) {
        Some(routing) => routing,
        None => return Err(TraceFault::NoPlan),
    };
    // The proof of the law reads what every excerpt keeps from this.
    routing.excerpt().validity();
    trace_by(alloc, &routing, point, s)
}
