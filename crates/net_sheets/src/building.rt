//! Points, mated pairs and sets of tables, added to a network.

ghost use Rattle.std.specs.Prelude.{◌≡◌, ◌≢◌, [], map, Ok, Err, IfErr, OnOk, Result};
ghost use Rattle.std.specs.List.{flat_map};
ghost use Rattle.net_data.specs.declared.events.Refusal.{Refusal};
ghost use Rattle.net_data.specs.Network.{Network};
ghost use Rattle.net_data.specs.Edits.{apply_all};
ghost use Rattle.net_sheets.specs.Faults.{IsRefusal};
ghost use Rattle.net_building.specs.Building.{point_event, set_events};
ghost use Rattle.net_sheets.specs.Events.{is_named as named, pair_events_after};

use crate::faults::{Reason, SpotFault};
use crate::records::spot_of;
use csv::ByteRecord;
use net_building::{GivenSet, apply_events, events_of_set};
use net_data::{Event, Net, Refusal};
use net_items::Point;
use net_items::lookups::is_point;
use point_codes::PointCode;
use std::alloc::Global;

/// What is told of a record whose event is refused.
pub(crate) fn refused(refusal: Refusal) -> Reason
    ensures { (applied : Result Network Refusal) → (refusal ≢ Refusal.OutOfMemory → applied ≡ Err refusal) → IsRefusal applied result }
{
    match refusal {
        Refusal::OutOfMemory => Reason::OutOfMemory,
        refusal => Reason::Refused(refusal),
    }
}

/// The fault of the record at a place, or of one of its fields, whose event is refused.
fn refused_at(table: &[ByteRecord], place: usize, field: u8, refusal: Refusal) -> SpotFault
    ensures { (applied : Result Network Refusal) → (refusal ≢ Refusal.OutOfMemory → applied ≡ Err refusal) → IsRefusal applied result.reason }
{
    SpotFault {
        spot: spot_of(table, place, field),
        reason: refused(refusal),
    }
}

/// Adds the points of records.
pub(crate) fn add_points(
    alloc: Global,
    net: &mut Net,
    table: &[ByteRecord],
    points: &[Point],
) -> Result<(), SpotFault>
    ensures ok { OnOk result (apply_all net.old (map point_event points.now) ≡ Ok net.new) }
    ensures err { IfErr result (λ fault. IsRefusal (apply_all net.old (map point_event points.now)) fault.reason) }
{
    for (i, point) in points.iter().enumerate() {
        let event = Event::AddPoint(point.code, point.kind);
        if let Err(refusal) = net.apply(alloc, &event) {
            return Err(refused_at(table, i, 0, refusal));
        }
    }
    Ok(())
}

/// Whether one of these points names another as its mate.
fn is_named(points: &[Point], point: PointCode, mate: PointCode) -> bool
    ensures { result ≡ named points.now point mate }
{
    points
        .iter()
        .any(|other| other.code == point && other.mate == Some(mate))
}

/// Pairs the points of records with their mates. A pair that is named at both is made at the first.
pub(crate) fn pair_points(
    alloc: Global,
    net: &mut Net,
    table: &[ByteRecord],
    points: &[Point],
) -> Result<(), SpotFault>
    ensures ok { OnOk result (apply_all net.old (pair_events_after [] points.now) ≡ Ok net.new) }
    ensures err { IfErr result (λ fault. IsRefusal (apply_all net.old (pair_events_after [] points.now)) fault.reason) }
{
    for (i, point) in points.iter().enumerate() {
        if let Some(mate) = point.mate {
            if is_named(&points[..i], mate, point.code) {
                continue;
            }
            let event = Event::Pair(point.code, mate);
            if let Err(refusal) = net.apply(alloc, &event) {
                return Err(refused_at(table, i, 3, refusal));
            }
        }
    }
    Ok(())
}

/// Adds a set. Its links, which are then failed alone, get their marks.
fn add_set(alloc: Global, net: &mut Net, set: &GivenSet) -> Result<(), Refusal>
    ensures ok { OnOk result (apply_all net.old (set_events set.now) ≡ Ok net.new) }
    ensures err { IfErr result (λ e. e ≢ Refusal.OutOfMemory → apply_all net.old (set_events set.now) ≡ Err e) }
{
    match events_of_set(alloc, set) {
        Ok(events) => apply_events(alloc, net, events),
        Err(_) => Err(Refusal::OutOfMemory),
    }
}

/// The field of a set's record that a refusal is about, or 0 for the whole record.
fn field_of(net: &Net, set: &GivenSet, refusal: &Refusal) -> u8 {
    // The proof reads from this that the points stand in rising code.
    net.validity();
    match refusal {
        Refusal::NoPoint => {
            if is_point(net.points(), set.a()) {
                return 3;
            }
            2
        }
        Refusal::BadLinks => 4,
        _ => 0,
    }
}

/// Adds the sets of records.
pub(crate) fn add_sets(
    alloc: Global,
    net: &mut Net,
    table: &[ByteRecord],
    sets: &[GivenSet],
) -> Result<(), SpotFault>
    ensures ok { OnOk result (apply_all net.old (flat_map set_events sets.now) ≡ Ok net.new) }
    ensures err { IfErr result (λ fault. IsRefusal (apply_all net.old (flat_map set_events sets.now)) fault.reason) }
{
    for (i, set) in sets.iter().enumerate() {
        if let Err(refusal) = add_set(alloc, net, set) {
            let field = field_of(net, set, &refusal);
            return Err(refused_at(table, i, field, refusal));
        }
    }
    Ok(())
}
