//! What a list of events would change, without making it, and which links would have to be restored (own, after Q.704 clause 10).
//!
//! 1. The events are made one after the other on a copy of a published version's network. The first that is refused is
//!    told, with its place.
//! 2. A change is a point with a row whose status towards a destination is not the same before and after. The statuses
//!    are those of the table from scratch.
//! 3. All changes are reported, in rising destination, and of one destination in rising point.
//! 4. The inhibition of a link is denied if it makes a destination inaccessible to a point that reaches it: where some
//!    status goes from allowed or restricted to prohibited.
//! 5. What events would move, or what moved from a version to another, is told in the same order: each point and destination whose
//!    choice (status, class or vias) differs.
//! 6. A link is restored by taking away all its marks. Told are the links whose restoring makes a point's status not prohibited, or
//!    allowed, as is wanted, and takes least: the fewest links; of as many links the fewest that have failed; and of as many of both
//!    the fewest marks. Of several ways that take as much the first is told: vias class by class, and the mate last; and of each set
//!    the first link of those that take least. Or it is told that no restoring does it.
//! 7. In a list of events the change of a whole set or point may stand too: it means its events, in the network that those before
//!    it make.
//! 8. A survey tries each set with an available link, or each transfer point, that fails alone, or each set without an available link
//!    that is restored alone, and tells how many pairs of a point and a destination each takes or brings back: as a what-if of it
//!    tells. Those of a point that fails itself aren't counted.
//! 9. A planner is warned, plan by plan, of a row that is missing though a set joins its point to one with a row or to the destination, and
//!    of a plan that a mate lacks; point by point, that no row leads traffic to it, or that no plan names it; of sets that no row leads
//!    over; and of each set and each transfer point whose failure alone takes pairs.
//!
//! Stands on `net_versions`, `net_building`. A change here also changes specs/ (Listed, Mending, Reports, Reroutes, Survey, Warnings),
//! proofs/, must-fail/ and wrong-bodies/.
#![tactic(auto)]

pub mod changes;
mod codes;
mod comparing;
mod costs;
pub mod laws;
pub mod listed;
pub mod mending;
pub mod moving;
pub mod reports;
pub mod reroutes;
pub mod survey;
pub mod versions;
pub mod wanted;
pub mod warnings;

pub use changes::{Change, Changes};
pub use listed::{report_listed, reroutes_listed};
pub use mending::{Mend, SetLink, find_mend, mate_row};
pub use moving::reroutes_by;
pub use reports::{Refused, Report, what_if};
pub use reroutes::{
    Reroute, RerouteCounts, Reroutes, count_reroutes, is_lost, is_only_moved, is_regained,
};
pub use survey::{
    Effect, Effects, Single, Survey, effect_of, singles_of, survey_from, survey_listed,
};
pub use versions::reroutes_since;
pub use wanted::Wanted;
pub use warnings::{Warning, Warnings, warnings_by, warnings_of};
