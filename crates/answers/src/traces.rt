//! The answer to `trace`.

ghost use Rattle.std.specs.Prelude.{◌≡◌, ◌++◌, ◌<◌, IfOk, OnOk, string_bytes};
ghost use Rattle.std.specs.List.{flat_map};
ghost use Rattle.path_trace.specs.Traces.{trace_at};
ghost use Rattle.answers.specs.Traces.{hop_text, trace_answer, trace_text};

use crate::answer::{Answer, NetAnswer, Reason};
use crate::codes::write_code;
use crate::links::put_link;
use net_versions::Version;
use path_trace::{TraceFault, trace};
use point_codes::PointCode;
use profile::{Hop, Hops, Trace};
use std::alloc::{AllocError, Global};

/// Adds a hop after a space, by its link and the point that it reaches.
fn put_hop(text: &mut String, hop: Hop) -> Result<(), AllocError>
    ensures { OnOk result (string_bytes text.new ≡ string_bytes text.old ++ hop_text hop) }
{
    let Hop { link, to, .. } = hop;
    put_link(text, link)?;
    text.push('>')?;
    write_code(text, to)
}

/// Adds hops, each after a space.
fn put_hops(text: &mut String, hops: &[Hop]) -> Result<(), AllocError>
    ensures { OnOk result (string_bytes text.new ≡ string_bytes text.old ++ flat_map hop_text hops.now) }
{
    for hop in hops {
        put_hop(text, *hop)?;
    }
    Ok(())
}

/// Adds a trace that reaches the destination over these hops.
fn put_reached(text: &mut String, hops: &Hops) -> Result<(), AllocError>
    ensures { OnOk result (string_bytes text.new ≡ string_bytes text.old ++ trace_text (Trace.Reached hops.now)) }
{
    text.push_str("trace reached")?;
    put_hops(text, hops.as_slice())
}

/// Adds a trace, in the order of its hops.
pub(crate) fn put_trace(text: &mut String, trace: &Trace) -> Result<(), AllocError>
    ensures { OnOk result (string_bytes text.new ≡ string_bytes text.old ++ trace_text trace.now) }
{
    match trace {
        Trace::Reached(hops) => put_reached(text, hops),
        Trace::Stopped => text.push_str("trace stopped"),
    }
}

/// The trace of a signalling link selection `s`, 0 to 15, from a point to a destination (Q.704 clause 2.3). It is refused 26 NoPlan if
/// the destination has no plan, then 29 NoRow if the point has no row. It fails if memory is refused.
pub fn answer_trace(
    alloc: Global,
    version: &Version,
    point: PointCode,
    dest: PointCode,
    s: u8,
) -> Result<Answer, AllocError>
    requires { s < 16 }
    ensures { IfOk result (λ answer. answer ≡ trace_answer (trace_at version.now.network point dest s)) }
{
    match trace(alloc, version, point, dest, s) {
        Ok(trace) => Ok(Answer::Net(NetAnswer::Trace(trace))),
        Err(TraceFault::NoPlan) => Ok(Answer::Refused(Reason::NoPlan)),
        Err(TraceFault::NoRow) => Ok(Answer::Refused(Reason::NoRow)),
        Err(TraceFault::OutOfMemory) => Err(AllocError),
    }
}
