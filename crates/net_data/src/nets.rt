//! The network.

ghost use Rattle.std.specs.Prelude.{◌≡◌, ◌≢◌, ◌↔◌, IsTrue, ◌<◌, [], true, OnOk, OnErr, IfOk, IsOk, None, is_some};
ghost use Rattle.std.specs.Arc.{arc_value};
ghost use Rattle.std.specs.Option.{option_copied, option_map};
ghost use Rattle.net_data.specs.Network.{Network};
ghost use Rattle.net_items.specs.Lookups.{plan_at, mate_of as the_mate};
ghost use Rattle.net_data.specs.Valid.{IsValid};
ghost use Rattle.net_data.specs.Edits.{refusal_of as the_refusal, changed, in_order, takes_none, Answers};

mod first_refusals;

use crate::edits::{put_point, remove_point, set_mate};
use crate::events::{Event, Refusal};
use crate::plans::Plans;
use crate::sorting::plan_in_order;
use link_state::LinkChange;
use net_items::copies::copy_plan;
use net_items::equals::are_same_points;
use net_items::lookups::mate_of;
use net_items::{Kind, LinkSet, Plan, Point, Slcs};
use net_sets::Sets;
use net_sets::changes::new_links;
use point_codes::PointCode;
use std::alloc::{AllocError, Global};
use std::marker::Model;
use std::sync::Arc;

/// A valid network.
#[derive(Drop)]
pub struct Net {
    ni: u8,
    tfr: bool,
    points: Vec<Point>,
    sets: Sets,
    plans: Plans,
}

impl Model for Net {
    ghost use Rattle.net_data.specs.Network.{Network};
    ghost use Rattle.net_data.specs.Valid.{IsValid};

    ghost Value = { Network };

    ghost view = { λ n. record { ni = n.ni; tfr = n.tfr; points = n.points.items; sets = n.sets; plans = n.plans } };

    ghost invariant = { λ n. IsValid (record { ni = n.ni; tfr = n.tfr; points = n.points.items; sets = n.sets; plans = n.plans }) };
}

impl Net {
    /// The empty network of a network indicator below 4, with the option of transfer-restricted messages. It takes no memory.
    pub fn empty(alloc: Global, ni: u8) -> Net
        requires { ni < 4 }
        ensures { result ≡ record { ni = ni; tfr = true; points = []; sets = []; plans = [] } }
    {
        Net {
            ni,
            tfr: true,
            points: Vec::new(alloc),
            sets: Sets::new(alloc),
            plans: Plans::new(alloc),
        }
    }

    /// A copy of the network. Its plans are shared.
    pub fn copy(&self, alloc: Global) -> Result<Net, AllocError>
        ensures { IfOk result (λ n. n ≡ self.now) }
    {
        Ok(Net {
            ni: self.ni,
            tfr: self.tfr,
            points: Vec::from_slice(alloc, self.points.as_slice())?,
            sets: self.sets.copy(alloc)?,
            plans: self.plans.copy(alloc)?,
        })
    }

    /// Whether all is equal.
    pub fn equals(&self, other: &Net) -> bool
        ensures { IsTrue result ↔ (self.now ≡ other.now) }
    {
        self.ni == other.ni
            && self.tfr == other.tfr
            && are_same_points(self.points.as_slice(), other.points.as_slice())
            && self.sets.equals(&other.sets)
            && self.plans.equals(&other.plans)
    }

    /// The fact that the type keeps: the network is valid. It does nothing when it runs.
    pub fn validity(&self)
        ensures { IsValid self.now }
    {
        // The proof reads the type's invariant from this.
        let _ni = self.ni;
    }

    /// The network indicator.
    pub fn ni(&self) -> u8
        ensures { result ≡ self.now.ni }
    {
        self.ni
    }

    /// Whether the network has the option of TFR.
    pub fn tfr(&self) -> bool
        ensures { result ≡ self.now.tfr }
    {
        self.tfr
    }

    /// The points in rising code.
    pub fn points(&self) -> &[Point]
        ensures { result.now ≡ self.now.points }
    {
        self.points.as_slice()
    }

    /// The mate of a point.
    pub fn mate_of(&self, code: PointCode) -> Option<PointCode>
        ensures { result ≡ the_mate self.now.points code }
    {
        mate_of(self.points.as_slice(), code)
    }

    /// The sets in rising id.
    pub fn sets(&self) -> &[LinkSet]
        ensures { result.now ≡ self.now.sets }
    {
        self.sets.as_slice()
    }

    /// The plan of a destination.
    pub fn plan(&self, dest: PointCode) -> Option<&Plan>
        ensures { option_copied result ≡ plan_at self.now.plans dest }
    {
        self.plans.find(dest)
    }

    /// The plan of a destination, shared with the network. It is looked for first in a place among the plans. It fails only if no
    /// further share can be counted, and then the plan is there.
    pub fn share_plan(&self, first: usize, dest: PointCode) -> Result<Option<Arc<Plan>>, AllocError>
        ensures ok { IfOk result (λ plan. option_map arc_value plan ≡ plan_at self.now.plans dest) }
        ensures err { OnErr result (is_some (plan_at self.now.plans dest) ≡ true) }
    {
        self.plans.share(first, dest)
    }

    /// The plans in rising destination.
    pub fn plans(&self) -> &Plans
        ensures { result.now ≡ self.now.plans }
    {
        &self.plans
    }

    /// The first refusal of an edit. It takes no memory.
    pub fn refusal_of(&self, event: &Event) -> Option<Refusal>
        ensures { result ≡ the_refusal self.now event.now }
    {
        match event {
            Event::Link(id, slc, change) => self.refusal_of_link(*id, *slc, *change),
            Event::AddPoint(code, kind) => self.refusal_of_add_point(*code, *kind),
            Event::RemovePoint(code) => self.refusal_of_remove_point(*code),
            Event::Pair(p, q) => self.refusal_of_pair(*p, *q),
            Event::Unpair(p) => self.refusal_of_unpair(*p),
            Event::AddSet(id, a, b, slcs) => self.refusal_of_add_set(*id, *a, *b, slcs),
            Event::RemoveSet(id) => self.refusal_of_remove_set(*id),
            Event::AddLink(id, slc) => self.refusal_of_add_link(*id, *slc),
            Event::RemoveLink(id, slc) => self.refusal_of_remove_link(*id, *slc),
            Event::SetPlan(plan) => self.refusal_of_set_plan(plan.as_plan()),
            Event::DropPlan(dest) => self.refusal_of_drop_plan(*dest),
            Event::SetTfr(_) => None,
        }
    }

    /// Changes a link's marks, where `refusal_of` refuses nothing. It takes no memory.
    pub fn change_link(&mut self, id: u16, slc: u8, change: LinkChange)
        requires { the_refusal self.old (Event.Link id slc change) ≡ None }
        ensures { self.new ≡ changed self.old (Event.Link id slc change) }
    {
        self.sets.change_link(id, slc, change);
    }

    fn add_point(&mut self, code: PointCode, kind: Kind) -> Result<(), AllocError>
        requires { the_refusal self.old (Event.AddPoint code kind) ≡ None }
        ensures ok { OnOk result (self.new ≡ changed self.old (Event.AddPoint code kind)) }
        ensures err { OnErr result (self.new ≡ self.old) }
    {
        // The proof reads the code's range from this.
        let _number = code.number();
        put_point(
            &mut self.points,
            Point {
                code,
                kind,
                mate: None,
            },
        )?;
        Ok(())
    }

    fn remove_point(&mut self, code: PointCode)
        requires { the_refusal self.old (Event.RemovePoint code) ≡ None }
        ensures { self.new ≡ changed self.old (Event.RemovePoint code) }
    {
        remove_point(&mut self.points, code);
    }

    fn pair(&mut self, p: PointCode, q: PointCode)
        requires { the_refusal self.old (Event.Pair p q) ≡ None }
        ensures { self.new ≡ changed self.old (Event.Pair p q) }
    {
        set_mate(&mut self.points, q, Some(p));
        set_mate(&mut self.points, p, Some(q));
    }

    fn unpair(&mut self, p: PointCode)
        requires { the_refusal self.old (Event.Unpair p) ≡ None }
        ensures { self.new ≡ changed self.old (Event.Unpair p) }
    {
        if let Some(mate) = self.mate_of(p) {
            set_mate(&mut self.points, mate, None);
            set_mate(&mut self.points, p, None);
        }
    }

    fn add_set(
        &mut self,
        id: u16,
        a: PointCode,
        b: PointCode,
        slcs: &Slcs,
    ) -> Result<(), AllocError>
        requires { the_refusal self.old (Event.AddSet id a b slcs.now) ≡ None }
        ensures ok { OnOk result (self.new ≡ changed self.old (Event.AddSet id a b slcs.now)) }
        ensures err { OnErr result (self.new ≡ self.old) }
    {
        let links = new_links(slcs.as_slice());
        self.sets.put(LinkSet { id, a, b, links })?;
        Ok(())
    }

    fn remove_set(&mut self, id: u16)
        requires { the_refusal self.old (Event.RemoveSet id) ≡ None }
        ensures { self.new ≡ changed self.old (Event.RemoveSet id) }
    {
        self.sets.remove(id);
    }

    fn add_link(&mut self, id: u16, slc: u8)
        requires { the_refusal self.old (Event.AddLink id slc) ≡ None }
        ensures { self.new ≡ changed self.old (Event.AddLink id slc) }
    {
        self.sets.add_link(id, slc);
    }

    fn remove_link(&mut self, id: u16, slc: u8)
        requires { the_refusal self.old (Event.RemoveLink id slc) ≡ None }
        ensures { self.new ≡ changed self.old (Event.RemoveLink id slc) }
    {
        self.sets.remove_link(id, slc);
    }

    fn put_plan(&mut self, alloc: Global, plan: Plan) -> Result<(), AllocError>
        requires { the_refusal self.old (Event.SetPlan plan) ≡ None }
        ensures ok { OnOk result (self.new ≡ changed self.old (Event.SetPlan plan)) }
        ensures err { OnErr result (self.new ≡ self.old) }
    {
        let plan = plan_in_order(alloc, plan)?;
        self.plans.put(alloc, plan)?;
        Ok(())
    }

    /// Puts a plan in the place of one of its destination, as the network keeps it, where `refusal_of` refuses nothing of it as it
    /// was given. It takes no memory.
    pub fn replace_plan(&mut self, given: &Plan, kept: Arc<Plan>)
        requires accepted { the_refusal self.old (Event.SetPlan given.now) ≡ None }
        requires kept { arc_value kept ≡ record given.now { rows = in_order given.now.rows } }
        requires there { is_some (plan_at self.old.plans given.now.dest) ≡ true }
        ensures { self.new ≡ changed self.old (Event.SetPlan given.now) }
    {
        // The proof reads from this that the plan is the one that was given.
        let _dest = given.dest;
        self.plans.replace(kept);
    }

    fn put_copy(&mut self, alloc: Global, plan: &Plan) -> Result<(), AllocError>
        requires { the_refusal self.old (Event.SetPlan plan.now) ≡ None }
        ensures ok { OnOk result (self.new ≡ changed self.old (Event.SetPlan plan.now)) }
        ensures err { OnErr result (self.new ≡ self.old) }
    {
        let copy = copy_plan(alloc, plan)?;
        self.put_plan(alloc, copy)?;
        Ok(())
    }

    fn drop_plan(&mut self, dest: PointCode)
        requires { the_refusal self.old (Event.DropPlan dest) ≡ None }
        ensures { self.new ≡ changed self.old (Event.DropPlan dest) }
    {
        self.plans.remove(dest);
    }

    fn set_tfr(&mut self, tfr: bool)
        ensures { self.new ≡ changed self.old (Event.SetTfr tfr) }
    {
        self.tfr = tfr;
    }

    /// An edit of which `refusal_of` refuses nothing. It fails only if memory is refused, and not where the edit takes none; then
    /// nothing has changed.
    pub fn change(&mut self, alloc: Global, event: &Event) -> Result<(), AllocError>
        requires { the_refusal self.old event.now ≡ None }
        ensures ok { OnOk result (self.new ≡ changed self.old event.now) }
        ensures err { OnErr result (self.new ≡ self.old) }
        ensures no_memory { takes_none event.now ≡ true → IsOk result }
    {
        match event {
            Event::Link(id, slc, change) => self.change_link(*id, *slc, *change),
            Event::AddPoint(code, kind) => return self.add_point(*code, *kind),
            Event::RemovePoint(code) => self.remove_point(*code),
            Event::Pair(p, q) => self.pair(*p, *q),
            Event::Unpair(p) => self.unpair(*p),
            Event::AddSet(id, a, b, slcs) => return self.add_set(*id, *a, *b, slcs),
            Event::RemoveSet(id) => self.remove_set(*id),
            Event::AddLink(id, slc) => self.add_link(*id, *slc),
            Event::RemoveLink(id, slc) => self.remove_link(*id, *slc),
            Event::SetPlan(plan) => return self.put_copy(alloc, plan.as_plan()),
            Event::DropPlan(dest) => self.drop_plan(*dest),
            Event::SetTfr(tfr) => self.set_tfr(*tfr),
        }
        Ok(())
    }

    /// One edit: the first refusal, else that one change. Out of memory comes last and changes nothing.
    pub fn apply(&mut self, alloc: Global, event: &Event) -> Result<(), Refusal>
        ensures answer { Answers self.old event.now result self.new }
        ensures no_memory { takes_none event.now ≡ true → result ≢ Err Refusal.OutOfMemory }
    {
        if let Some(refusal) = self.refusal_of(event) {
            return Err(refusal);
        }
        match self.change(alloc, event) {
            Ok(()) => Ok(()),
            Err(_) => Err(Refusal::OutOfMemory),
        }
    }

    fn set_plan(&mut self, alloc: Global, plan: Plan) -> Result<(), Refusal>
        ensures { Answers self.old (Event.SetPlan plan) result self.new }
    {
        if let Some(refusal) = self.refusal_of_set_plan(&plan) {
            return Err(refusal);
        }
        if self.put_plan(alloc, plan).is_err() {
            return Err(Refusal::OutOfMemory);
        }
        Ok(())
    }

    /// One edit as `apply` makes it, of an event that is given away: a plan goes in without a copy.
    pub fn apply_owned(&mut self, alloc: Global, event: Event) -> Result<(), Refusal>
        ensures answer { Answers self.old event result self.new }
        ensures no_memory { takes_none event ≡ true → result ≢ Err Refusal.OutOfMemory }
    {
        match event {
            Event::SetPlan(plan) => self.set_plan(alloc, plan.into_plan()),
            other => self.apply(alloc, &other),
        }
    }
}
