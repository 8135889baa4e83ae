//! What comes back to a desk: results, and jobs that nobody does.

ghost use Rattle.std.specs.Prelude.{◌≡◌, ◌↔◌, IsTrue, None};
ghost use Rattle.desk_core.specs.Steps.{Abandons, Gives, IsOfTarget, out_refusal};

use crate::desk::Desk;
use point_codes::PointCode;
use work_units::{Refusal, Settled};

impl Desk {
    /// Why a result or an abandonment is refused, but for what it read.
    fn refusal_out(&self, version: u64, dest: PointCode) -> Option<Refusal>
        ensures { result ≡ out_refusal self.now version dest }
    {
        match &self.target {
            Some(target) => {
                if target.number() != version {
                    Some(Refusal::Stale(Some(target.number())))
                } else if !target.is_out(dest) {
                    Some(Refusal::Unasked)
                } else {
                    None
                }
            }
            None => Some(Refusal::Stale(None)),
        }
    }

    /// Whether a result read what the open target's network has for its destination.
    fn is_of_target(&self, settled: &Settled) -> bool
        ensures { IsTrue result ↔ IsOfTarget self.now settled.now }
    {
        match &self.target {
            Some(target) => target.is_of(settled),
            None => false,
        }
    }

    /// Takes in a result, or hands it back. It takes no memory.
    pub fn give(&mut self, settled: Settled) -> Result<(), (Settled, Refusal)>
        ensures { Gives self.old settled result self.new }
    {
        if let Some(refusal) = self.refusal_out(settled.version(), settled.dest()) {
            return Err((settled, refusal));
        }
        if !self.is_of_target(&settled) {
            return Err((settled, Refusal::Differs));
        }
        self.give_own(settled)
    }

    /// Takes in the result of a job that the open target handed out, or hands it back, as `give`; but it compares nothing, since
    /// such a job read what the target's network has. It takes no memory.
    pub fn give_own(&mut self, settled: Settled) -> Result<(), (Settled, Refusal)>
        requires { out_refusal self.old settled.version settled.excerpt.plan.dest ≡ None → IsOfTarget self.old settled }
        ensures { Gives self.old settled result self.new }
    {
        if let Some(refusal) = self.refusal_out(settled.version(), settled.dest()) {
            return Err((settled, refusal));
        }
        match &mut self.target {
            Some(target) => {
                target.fill(settled);
                Ok(())
            }
            None => Err((settled, Refusal::Stale(None))),
        }
    }

    /// A destination that is out waits again, last. It takes no memory.
    pub fn abandon(&mut self, version: u64, dest: PointCode) -> Result<(), Refusal>
        ensures { Abandons self.old version dest result self.new }
    {
        if let Some(refusal) = self.refusal_out(version, dest) {
            return Err(refusal);
        }
        match &mut self.target {
            Some(target) => {
                target.put_back(dest);
                Ok(())
            }
            None => Err(Refusal::Stale(None)),
        }
    }
}
