//! The links of a set that carry the sixteen share numbers, kept by two masks.

ghost use Rattle.std.specs.Prelude.{◌≡◌, ◌↔◌, ◌<◌, ◌≤◌, IsTrue, None, length, slice_get, slice_index_or};
ghost use Rattle.sls_share.specs.Carried.{codes_in, links_for};

use crate::share::masked_position;
use link_sets::mask;
use net_items::LinkSet;
use std::marker::Model;

/// Which link of a set carries each share number, by its signalling link code (own, after Q.704 clause 2.3).
///
/// It takes four bytes: a bit for each signalling link code of the set, and a bit for each available position among them
/// in rising code. Masks that differ can say the same.
#[derive(Debug, Drop)]
pub struct Carried {
    codes: u16,
    available: u16,
}

impl Model for Carried {
    ghost use Rattle.std.specs.Prelude.{ℕ, List, Option};
    ghost use Rattle.sls_share.specs.Carried.{codes_in, codes_for};

    ghost Value = { List (Option ℕ) };

    ghost view = { λ c. codes_for (codes_in c.codes) c.available };
}

/// How many codes a mask has.
#[tactic(auto, using(crate::proofs::CarriedLemmas::count_is))]
fn code_count(codes: u16) -> usize
    ensures count { result ≡ length (codes_in codes) }
    ensures few { result ≤ 16 }
{
    codes.count_ones() as usize
}

/// The code at a place of a mask, in rising order.
fn code_at(codes: u16, position: usize) -> Option<u8>
    ensures { result ≡ slice_get (codes_in codes) position }
{
    let mut before = 0;
    for code in 0..16u8 {
        if codes >> code & 1 == 1 {
            if before == position {
                return Some(code);
            }
            before += 1;
        }
    }
    None
}

impl Carried {
    /// The links that carry the sixteen share numbers over a set.
    #[tactic(auto, using(crate::proofs::CarriedLemmas::carried_is))]
    pub fn of(set: &LinkSet) -> Carried
        ensures { result ≡ links_for set.now.links }
    {
        set.links.validity();
        Carried {
            codes: set.links.codes(),
            available: mask(set),
        }
    }

    /// The signalling link code of the link that carries share number `t` (0 to 15), if one does.
    #[tactic(auto, using(crate::proofs::CarriedLemmas::code_found, crate::proofs::CarriedLemmas::code_missing, crate::proofs::CarriedLemmas::code_of_share))]
    pub fn link_for(&self, t: u8) -> Option<u8>
        requires { t < 16 }
        ensures { result ≡ slice_index_or self.now t None }
    {
        let position = masked_position(self.available, code_count(self.codes), t)?;
        code_at(self.codes, position)
    }

    /// Whether the sixteen answers are equal. It takes no memory.
    pub fn equals(&self, other: &Carried) -> bool
        ensures { IsTrue result ↔ (self.now ≡ other.now) }
    {
        if self.codes == other.codes && self.available == other.available {
            return true;
        }
        for t in 0..16u8 {
            if self.link_for(t) != other.link_for(t) {
                return false;
            }
        }
        true
    }

    /// A copy. It takes no memory.
    pub fn copy(&self) -> Carried
        ensures { result ≡ self.now }
    {
        Carried {
            codes: self.codes,
            available: self.available,
        }
    }
}
