//! What single failures would take, and single repairs bring back.

ghost use Rattle.std.specs.Prelude.{◌≡◌, filter, length, map, IfOk};
ghost use Rattle.link_sets.specs.Availability.{set_available as available};
ghost use Rattle.net_items.specs.declared.items.LinkSet.{LinkSet as SetValue};
ghost use Rattle.net_items.specs.declared.items.Point.{Point as PointValue};
ghost use Rattle.what_if.specs.Survey.{effect_of as the_effect, has_effect, is_about as the_about, is_counted as counted, is_down as the_down, is_gain as the_gain, is_transfer as transfers, pairs_by, singles, survey_from as the_survey_from, survey_listed as the_survey, survey_of, tried as the_tried};

use crate::changes::{Change, is_loss, is_prohibited, is_usable};
use crate::listed::{network_listed, report_listed};
use crate::reports::Refused;
use excerpts::Frozen;
use link_sets::set_available;
use link_state::End::{First, Second};
use link_state::LinkChange;
use net_building::{Listed, Surveyed, Whole};
use net_data::Net;
use net_items::{Kind, LinkSet, Listing, Point};
use net_versions::Version;
use point_codes::PointCode;
use std::alloc::{AllocError, Global};

/// What is tried alone.
#[derive(Clone, Copy, Debug, PartialEq, Eq)]
pub enum Single {
    /// The set of this id fails as a whole.
    SetFails(u16),
    /// The point of this code fails as a whole, with all sets that end there.
    PointFails(PointCode),
    /// All links of the set of this id are restored.
    SetRestored(u16),
}

/// What a single failure takes, or a single repair brings back.
#[derive(Clone, Copy, Debug, PartialEq, Eq)]
pub struct Effect {
    /// What is tried.
    pub single: Single,
    /// Of how many pairs of a point and a destination the status goes from allowed or restricted to prohibited, but for those of the
    /// point that fails; or the other way round, where a set is restored.
    pub pairs: usize,
}

/// Effects in the order in which they are tried.
pub type Effects = Listing<Effect>;

/// What single failures take, or single repairs bring back.
#[derive(Debug, Drop)]
pub struct Survey {
    /// What is surveyed.
    pub surveyed: Surveyed,
    /// How many failures or repairs were tried.
    pub tried: usize,
    /// Those that take or bring back some pair.
    pub effects: Effects,
}

/// The change of each link of a set, as it stands in a list of events.
fn of_set(id: u16, change: LinkChange) -> Listed
    ensures { result ≡ Listed.Whole (Whole.Set id change) }
{
    Listed::Whole(Whole::Set(id, change))
}

/// What a single failure or repair is in a list of events.
fn tried(alloc: Global, single: Single) -> Result<Vec<Listed>, AllocError>
    ensures { IfOk result (λ entries. entries.items ≡ the_tried single) }
{
    match single {
        Single::SetFails(id) => Ok(vec![in alloc; of_set(id, LinkChange::Fail)]?),
        Single::PointFails(code) => {
            Ok(vec![in alloc; Listed::Whole(Whole::Point(code, LinkChange::Fail))]?)
        }
        Single::SetRestored(id) => Ok(vec![in alloc;
            of_set(id, LinkChange::Restore),
            of_set(id, LinkChange::Unblock(First)),
            of_set(id, LinkChange::Unblock(Second)),
            of_set(id, LinkChange::Uninhibit(First)),
            of_set(id, LinkChange::Uninhibit(Second)),
        ]?),
    }
}

/// Whether a change goes from prohibited to allowed or restricted.
fn is_gain(change: &Change) -> bool
    ensures { result ≡ the_gain change.now }
{
    is_prohibited(change.before) && is_usable(change.after)
}

/// Whether a change is of a point, or of what is told towards it.
fn is_about(code: PointCode, change: &Change) -> bool
    ensures { result ≡ the_about code change.now }
{
    change.point == code || change.dest == code
}

/// Whether a change counts where this is tried.
fn is_counted(single: Single, change: &Change) -> bool
    ensures { result ≡ counted single change.now }
{
    match single {
        Single::SetFails(_) => is_loss(change),
        Single::PointFails(code) => is_loss(change) && !is_about(code, change),
        Single::SetRestored(_) => is_gain(change),
    }
}

/// How many changes count where this is tried.
fn count_in(single: Single, changes: &[Change]) -> usize
    ensures { result ≡ length (filter (counted single) changes.now) }
{
    changes
        .iter()
        .filter(|change| is_counted(single, change))
        .count()
}

/// How many pairs a single failure takes, or a single repair brings back.
fn pairs_of(alloc: Global, version: &Version, single: &Single) -> Result<usize, AllocError>
    ensures { IfOk result (λ pairs. pairs ≡ pairs_by version.now.network single.now) }
{
    let entries = tried(alloc, *single)?;
    match report_listed(alloc, version, entries.as_slice())? {
        Ok(report) => Ok(count_in(*single, report.changes.as_slice())),
        Err(_) => Ok(0),
    }
}

/// What a single failure of a version's network takes, or a single repair brings back.
///
/// # Errors
///
/// `AllocError` if memory is refused.
pub fn effect_of(alloc: Global, version: &Version, single: Single) -> Result<Effect, AllocError>
    ensures { IfOk result (λ effect. effect ≡ the_effect version.now.network single) }
{
    let pairs = pairs_of(alloc, version, &single)?;
    Ok(Effect { single, pairs })
}

/// What each of these takes or brings back.
fn effects_of(
    alloc: Global,
    version: &Version,
    singles: &[Single],
) -> Result<Vec<Effect>, AllocError>
    ensures { IfOk result (λ effects. effects.items ≡ map (the_effect version.now.network) singles.now) }
{
    let mut effects = Vec::with_capacity(alloc, singles.len())?;
    for single in singles {
        effects.push(effect_of(alloc, version, *single)?)?;
    }
    Ok(effects)
}

/// Those that take or bring back some pair.
fn with_effect(alloc: Global, effects: &[Effect]) -> Result<Vec<Effect>, AllocError>
    ensures { IfOk result (λ some. some.items ≡ filter has_effect effects.now) }
{
    let mut some = Vec::new(alloc);
    for effect in effects {
        if effect.pairs > 0 {
            some.push(*effect)?;
        }
    }
    Ok(some)
}

/// The survey in which all that is tried has these effects.
///
/// # Errors
///
/// `AllocError` if memory is refused.
pub fn survey_from(alloc: Global, what: Surveyed, effects: &[Effect]) -> Result<Survey, AllocError>
    ensures { IfOk result (λ survey. survey ≡ the_survey_from what effects.now) }
{
    let list = with_effect(alloc, effects)?;
    Ok(Survey {
        surveyed: what,
        tried: effects.len(),
        effects: Effects::from_vec(list),
    })
}

/// The failures of sets with an available link.
fn failing_sets(alloc: Global, sets: &[LinkSet]) -> Result<Vec<Single>, AllocError>
    ensures { IfOk result (λ list. list.items ≡ map (λ (s : SetValue). Single.SetFails s.id) (filter available sets.now)) }
{
    let mut list = Vec::new(alloc);
    for set in sets {
        if set_available(set) {
            list.push(Single::SetFails(set.id))?;
        }
    }
    Ok(list)
}

/// Whether no link of a set is available.
fn is_down(set: &LinkSet) -> bool
    ensures { result ≡ the_down set.now }
{
    !set_available(set)
}

/// The repairs of sets without an available link.
fn restored_sets(alloc: Global, sets: &[LinkSet]) -> Result<Vec<Single>, AllocError>
    ensures { IfOk result (λ list. list.items ≡ map (λ (s : SetValue). Single.SetRestored s.id) (filter the_down sets.now)) }
{
    let mut list = Vec::new(alloc);
    for set in sets {
        if is_down(set) {
            list.push(Single::SetRestored(set.id))?;
        }
    }
    Ok(list)
}

/// Whether a point is a transfer point.
fn is_transfer(point: &Point) -> bool
    ensures { result ≡ transfers point.now }
{
    match point.kind {
        Kind::Stp => true,
        Kind::Sep => false,
    }
}

/// The failures of transfer points.
fn failing_points(alloc: Global, points: &[Point]) -> Result<Vec<Single>, AllocError>
    ensures { IfOk result (λ list. list.items ≡ map (λ (p : PointValue). Single.PointFails p.code) (filter transfers points.now)) }
{
    let mut list = Vec::new(alloc);
    for point in points {
        if is_transfer(point) {
            list.push(Single::PointFails(point.code))?;
        }
    }
    Ok(list)
}

/// What of a network is tried, one after the other.
///
/// # Errors
///
/// `AllocError` if memory is refused.
pub fn singles_of(alloc: Global, net: &Net, what: Surveyed) -> Result<Vec<Single>, AllocError>
    ensures { IfOk result (λ list. list.items ≡ singles what net.now) }
{
    match what {
        Surveyed::Sets => failing_sets(alloc, net.sets()),
        Surveyed::Points => failing_points(alloc, net.points()),
        Surveyed::Down => restored_sets(alloc, net.sets()),
    }
}

/// The survey of a version's network.
pub(crate) fn survey_version(
    alloc: Global,
    version: &Version,
    what: Surveyed,
) -> Result<Survey, AllocError>
    ensures { IfOk result (λ survey. survey ≡ survey_of what version.now.network) }
{
    let singles = singles_of(alloc, version.net().net(), what)?;
    let effects = effects_of(alloc, version, singles.as_slice())?;
    survey_from(alloc, what, effects.as_slice())
}

/// The survey of a network that was never published.
fn survey_net(alloc: Global, net: &Frozen, what: Surveyed) -> Result<Survey, AllocError>
    ensures { IfOk result (λ survey. survey ≡ survey_of what net.now) }
{
    let base = Version::opening(alloc, net.net().copy(alloc)?)?;
    survey_version(alloc, &base, what)
}

/// What each single failure of a version's network would take, or each single repair bring back, after the events of a list, which
/// may be empty: as a what-if of each alone tells it (own, after Q.704 clause 10). The first entry that is refused is told, with its
/// place.
///
/// # Errors
///
/// `AllocError` if memory is refused.
pub fn survey_listed(
    alloc: Global,
    version: &Version,
    what: Surveyed,
    entries: &[Listed],
) -> Result<Result<Survey, Refused>, AllocError>
    ensures { IfOk result (λ r. r ≡ the_survey what version.now.network entries.now) }
{
    if entries.is_empty() {
        return Ok(Ok(survey_version(alloc, version, what)?));
    }
    match network_listed(alloc, version, entries)? {
        Ok((net, _)) => Ok(Ok(survey_net(alloc, &net, what)?)),
        Err(refused) => Ok(Err(refused)),
    }
}
