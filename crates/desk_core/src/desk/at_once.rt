//! A publication at once, with no target between.

ghost use Rattle.std.specs.Prelude.{◌≡◌, ◌<◌, ℕ, false, None, [], IfOk, OnOk, OnErr, map};
ghost use Rattle.std.specs.Arc.{arc_value};
ghost use Rattle.std.specs.Option.{IfSome};
ghost use Rattle.net_data.specs.Edits.{replay};
ghost use Rattle.net_versions.specs.Versions.{settled_version};
ghost use Rattle.excerpts.specs.Excerpt.{content_at};
ghost use Rattle.dirty_sets.specs.Bits.{is_marked};
ghost use Rattle.desk_core.specs.Desk.{accepted, next_version};
ghost use Rattle.desk_core.specs.Runs.{IsRunOf};
ghost use Rattle.desk_core.specs.Steps.{caught_up, with_version};

use crate::desk::{Desk, copies};
use crate::following::drop_front;
use crate::opening::frozen_copy;
use dirty_sets::Codes;
use excerpts::{Frozen, are_keeping};
use net_data::{Event, Net};
use net_versions::Version;
use std::alloc::{AllocError, Global};
use std::sync::Arc;

/// The version of a number after some events, if these changed nothing but links and sets, of which few turned: each routing is
/// followed from that of the version before.
fn followed_version(
    alloc: Global,
    number: u64,
    latest: &Net,
    before: &Version,
    events: &[Event],
) -> Result<Option<Arc<Version>>, AllocError>
    requires { latest.now ≡ replay before.now.network events.now }
    ensures { IfOk result (λ o. IfSome o (λ v. arc_value v ≡ settled_version number events.now latest.now)) }
{
    if !are_keeping(events) {
        return Ok(None);
    }
    let net = frozen_copy(alloc, latest, before.net(), events)?;
    let Some(turned) = net.turned_by(alloc, before.net(), events)? else {
        return Ok(None);
    };
    let batch = copies(alloc, events)?;
    let version = Version::followed(alloc, number, batch, net, before, &turned)?;
    Ok(Some(Arc::new(alloc, version)?))
}

/// Whether each plan of a network was touched, in the plans' places.
fn touched_places(alloc: Global, net: &Frozen, touched: &Codes) -> Result<Vec<bool>, AllocError>
    ensures { IfOk result (λ v. v.items ≡ map (λ plan. is_marked touched.now plan.dest) net.now.plans) }
{
    let plans = net.net().plans();
    let mut places = Vec::with_capacity(alloc, plans.len())?;
    for position in 0..plans.len() {
        places.push(touched.has(plans.at(position).dest))?;
    }
    Ok(places)
}

/// The version of a number after some events: towards each destination that they touched it is settled from scratch.
fn renewed_version(
    alloc: Global,
    number: u64,
    latest: &Net,
    touched: &Codes,
    before: &Version,
    events: &[Event],
) -> Result<Arc<Version>, AllocError>
    requires now { latest.now ≡ replay before.now.network events.now }
    requires kept { (x : ℕ) → x < 16384 → is_marked touched.now x ≡ false → content_at latest.now x ≡ content_at before.now.network x }
    ensures { IfOk result (λ v. arc_value v ≡ settled_version number events.now latest.now) }
{
    latest.validity();
    let net = frozen_copy(alloc, latest, before.net(), events)?;
    let places = touched_places(alloc, &net, touched)?;
    let batch = copies(alloc, events)?;
    let version = Version::renewed(alloc, number, batch, net, before, &places)?;
    Ok(Arc::new(alloc, version)?)
}

impl Desk {
    /// A version of all accepted events becomes the published one, with no target open. It takes no memory.
    fn put_version(&mut self, version: Arc<Version>)
        requires none { self.old.target ≡ None }
        requires next { arc_value version ≡ next_version self.old (accepted self.old) }
        ensures { self.new ≡ with_version self.old (next_version self.old (accepted self.old)) }
    {
        self.touched.clear();
        let count = self.pending.len();
        drop_front(&mut self.pending, count);
        self.published = version;
    }

    /// The version of all accepted events.
    fn version_at_once(&self, alloc: Global) -> Result<Arc<Version>, AllocError>
        requires { self.now.target ≡ None }
        ensures { IfOk result (λ v. arc_value v ≡ next_version self.now (accepted self.now)) }
    {
        self.latest.validity();
        let number = self.accepted();
        let pending = self.pending.as_slice();
        let before = &self.published;
        if let Some(version) = followed_version(alloc, number, &self.latest, before, pending)? {
            return Ok(version);
        }
        let touched = self.touched.all();
        renewed_version(alloc, number, &self.latest, &touched, before, pending)
    }

    /// Publishes all accepted events at once, with no target open. A run of the desk's steps leads there: an opening, a job and its
    /// result for each destination that waits, and a publication. If none are accepted, or memory is refused, all is as it was.
    pub fn publish_at_once(&mut self, alloc: Global) -> Result<(), AllocError>
        requires { self.old.target ≡ None }
        ensures ok { OnOk result (self.new ≡ caught_up self.old) }
        ensures err { OnErr result (self.new ≡ self.old) }
        ensures run { IsRunOf self.old [] self.new }
    {
        if self.pending.is_empty() {
            return Ok(());
        }
        self.latest.validity();
        let version = self.version_at_once(alloc)?;
        self.put_version(version);
        Ok(())
    }
}
