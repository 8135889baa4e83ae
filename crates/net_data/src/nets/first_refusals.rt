//! The first refusal of each kind of edit.

ghost use Rattle.std.specs.Prelude.{◌≡◌};
ghost use Rattle.net_data.specs.Edits.{refusal_of as the_refusal};

use crate::events::{Event, Refusal};
use crate::nets::Net;
use link_state::LinkChange;
use net_items::lookups::{is_point, is_stp, mate_of, set_between};
use net_items::{Kind, Plan, Slcs};
use net_sets::set_questions::{
    are_good_links, find_set, is_any_end, is_set, set_has_last_link, set_has_link,
};
use plan_rows::causes::{are_small_rows, has_points, wrong_row};
use point_codes::PointCode;

impl Net {
    pub(super) fn refusal_of_add_point(&self, code: PointCode, kind: Kind) -> Option<Refusal>
        ensures { result ≡ the_refusal self.now (Event.AddPoint code kind) }
    {
        if is_point(self.points.as_slice(), code) {
            return Some(Refusal::PointThere);
        }
        if self.points.len() >= 1024 {
            return Some(Refusal::Limit);
        }
        None
    }

    pub(super) fn refusal_of_remove_point(&self, code: PointCode) -> Option<Refusal>
        ensures { result ≡ the_refusal self.now (Event.RemovePoint code) }
    {
        if !is_point(self.points.as_slice(), code) {
            return Some(Refusal::NoPoint);
        }
        if is_any_end(self.sets.as_slice(), code) || self.plans.any_uses_point(code) {
            return Some(Refusal::PointUsed);
        }
        if self.mate_of(code).is_some() {
            return Some(Refusal::Paired);
        }
        None
    }

    pub(super) fn refusal_of_pair(&self, p: PointCode, q: PointCode) -> Option<Refusal>
        ensures { result ≡ the_refusal self.now (Event.Pair p q) }
    {
        let points = self.points.as_slice();
        if !is_point(points, p) || !is_point(points, q) {
            return Some(Refusal::NoPoint);
        }
        if !is_stp(points, p) || !is_stp(points, q) {
            return Some(Refusal::NotStp);
        }
        if mate_of(points, p).is_some() || mate_of(points, q).is_some() {
            return Some(Refusal::Paired);
        }
        if self.plans.any_uses_pair(p, q) {
            return Some(Refusal::PairUsed);
        }
        if p == q {
            return Some(Refusal::SameEnds);
        }
        None
    }

    pub(super) fn refusal_of_unpair(&self, p: PointCode) -> Option<Refusal>
        ensures { result ≡ the_refusal self.now (Event.Unpair p) }
    {
        if !is_point(self.points.as_slice(), p) {
            return Some(Refusal::NoPoint);
        }
        match self.mate_of(p) {
            None => Some(Refusal::NotPaired),
            Some(mate) => {
                if self.plans.any_has_flag(p) || self.plans.any_has_flag(mate) {
                    return Some(Refusal::PairUsed);
                }
                None
            }
        }
    }

    pub(super) fn refusal_of_add_set(
        &self,
        id: u16,
        a: PointCode,
        b: PointCode,
        slcs: &Slcs,
    ) -> Option<Refusal>
        ensures { result ≡ the_refusal self.now (Event.AddSet id a b slcs.now) }
    {
        if !is_point(self.points.as_slice(), a) || !is_point(self.points.as_slice(), b) {
            return Some(Refusal::NoPoint);
        }
        if is_set(self.sets.as_slice(), id) {
            return Some(Refusal::SetThere);
        }
        if self.sets.is_adjacent(a, b) {
            if let Some(set) = set_between(self.sets.as_slice(), a, b) {
                return Some(Refusal::Joined(set.id));
            }
        }
        if a == b {
            return Some(Refusal::SameEnds);
        }
        if !are_good_links(slcs.as_slice()) {
            return Some(Refusal::BadLinks);
        }
        if id > 4095 {
            return Some(Refusal::Limit);
        }
        None
    }

    pub(super) fn refusal_of_remove_set(&self, id: u16) -> Option<Refusal>
        ensures { result ≡ the_refusal self.now (Event.RemoveSet id) }
    {
        match find_set(self.sets.as_slice(), id) {
            None => Some(Refusal::NoSet),
            Some(set) => {
                if self.plans.any_uses_set(self.points.as_slice(), set) {
                    return Some(Refusal::SetUsed);
                }
                None
            }
        }
    }

    pub(super) fn refusal_of_link(&self, id: u16, slc: u8, change: LinkChange) -> Option<Refusal>
        ensures { result ≡ the_refusal self.now (Event.Link id slc change) }
    {
        // Mostly the link is there, which one search tells.
        if set_has_link(self.sets.as_slice(), id, slc) {
            return None;
        }
        if is_set(self.sets.as_slice(), id) {
            Some(Refusal::NoLink)
        } else {
            Some(Refusal::NoSet)
        }
    }

    pub(super) fn refusal_of_add_link(&self, id: u16, slc: u8) -> Option<Refusal>
        ensures { result ≡ the_refusal self.now (Event.AddLink id slc) }
    {
        if !is_set(self.sets.as_slice(), id) {
            return Some(Refusal::NoSet);
        }
        if slc > 15 {
            return Some(Refusal::BadLinks);
        }
        if set_has_link(self.sets.as_slice(), id, slc) {
            return Some(Refusal::LinkThere);
        }
        None
    }

    pub(super) fn refusal_of_remove_link(&self, id: u16, slc: u8) -> Option<Refusal>
        ensures { result ≡ the_refusal self.now (Event.RemoveLink id slc) }
    {
        if !is_set(self.sets.as_slice(), id) {
            return Some(Refusal::NoSet);
        }
        if !set_has_link(self.sets.as_slice(), id, slc) {
            return Some(Refusal::NoLink);
        }
        if set_has_last_link(self.sets.as_slice(), id) {
            return Some(Refusal::LastLink);
        }
        None
    }

    pub(super) fn refusal_of_set_plan(&self, plan: &Plan) -> Option<Refusal>
        ensures { result ≡ the_refusal self.now (Event.SetPlan plan.now) }
    {
        let points = self.points.as_slice();
        let rows = plan.rows.as_slice();
        if !is_point(points, plan.dest) || !has_points(points, rows) {
            return Some(Refusal::NoPoint);
        }
        if let Some(wrong) = wrong_row(points, &self.sets, plan.dest, rows) {
            return Some(Refusal::BadRow(wrong.point, wrong.cause));
        }
        if !are_small_rows(rows) {
            return Some(Refusal::Limit);
        }
        None
    }

    pub(super) fn refusal_of_drop_plan(&self, dest: PointCode) -> Option<Refusal>
        ensures { result ≡ the_refusal self.now (Event.DropPlan dest) }
    {
        if !is_point(self.points.as_slice(), dest) {
            return Some(Refusal::NoPoint);
        }
        if !self.plans.has(dest) {
            return Some(Refusal::NoPlan);
        }
        None
    }
}
