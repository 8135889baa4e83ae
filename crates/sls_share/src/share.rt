//! The link that carries a share number, and the via that carries an SLS.

ghost use Rattle.std.specs.Prelude.{◌≡◌, ◌<◌, ◌≤◌, ◌==◌, IsTrue, None, false, slice_index_or};
ghost use Rattle.std.specs.Option.{IfSome};
ghost use Rattle.sls_share.specs.Share.{probe as probe_of, link_for as link_of, IsSteady, via_of, share_of, HasMember};
ghost use Rattle.sls_share.specs.Carried.{masked_position as position_of};

use crate::carried::Carried;
use net_items::LinkSet;

/// The position that is tried at turn `j` for share number `t` among `n` links (own).
///
/// A share number is 0 to 15, a set has 1 to 16 links, and there are as many turns as links.
pub fn probe(t: u8, n: usize, j: usize) -> usize
    requires share { t < 16 }
    requires few { n ≤ 16 }
    requires turn { j < n }
    ensures value { result ≡ probe_of t n j }
    ensures within { result < n }
{
    let share = usize::from(t);
    if j == 0 {
        share % n
    } else {
        (share % n + 1 + (share / n + (j - 1)) % (n - 1)) % n
    }
}

/// The first available position in the probe order of share number `t` (0 to 15) among `n` links, at most 16. Bit i of
/// `available` stands for position i.
pub(crate) fn masked_position(available: u16, n: usize, t: u8) -> Option<usize>
    requires share { t < 16 }
    requires few { n ≤ 16 }
    ensures position { result ≡ position_of available n t }
    ensures within { IfSome result (λ i. i < n) }
{
    for j in 0..n {
        let i = probe(t, n, j);
        if available >> i & 1 == 1 {
            return Some(i);
        }
    }
    None
}

/// The signalling link code of the link that carries share number `t`, if one is available (own, after Q.704 clause 2.3).
///
/// There are sixteen share numbers: None for `t` from 16 on. When another link becomes unavailable, the answer stays.
#[tactic(auto, using(crate::proofs::CarriedLemmas::link_of_share, crate::proofs::ShareLemmas::steady_answer))]
pub fn link_for(set: &LinkSet, t: u8) -> Option<u8>
    ensures answer { t < 16 → result ≡ link_of set.now.links t }
    ensures beyond { 16 ≤ t → result ≡ None }
    ensures steady { t < 16 → IsSteady set.now.links t result }
{
    set.links.validity();
    if t >= 16 {
        return None;
    }
    Carried::of(set).link_for(t)
}

/// The number of the via that carries SLS `s` (0 to 15), 0 or 1, and its share number there (own, after Q.704 clause
/// 2.3).
///
/// `size` is the configured number of vias of the class, 1 or 2, and `used` tells which of them are members; if one
/// is, the answer is a member.
pub fn member_for(size: u8, used: [bool; 2], s: u8) -> (u8, u8)
    requires sls { s < 16 }
    ensures via { result.0 ≡ via_of size (slice_index_or used 0 false) (slice_index_or used 1 false) s }
    ensures share { result.1 ≡ share_of size s }
    ensures positions { result.0 < 2 }
    ensures below { result.1 < 16 }
    ensures used { HasMember size (slice_index_or used 0 false) (slice_index_or used 1 false) → IsTrue (slice_index_or used result.0 false) }
    ensures of_class { HasMember size (slice_index_or used 0 false) (slice_index_or used 1 false) → result.0 < size }
{
    if size == 1 {
        return (0, s);
    }
    let preferred = s % 2;
    let share = s / 2 + 8 * preferred;
    let via = if used[usize::from(preferred)] {
        preferred
    } else {
        1 - preferred
    };
    (via, share)
}
