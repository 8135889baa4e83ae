//! What is asked of link sets, and of the links of a new one.

ghost use Rattle.std.specs.Prelude.{◌≡◌, ◌&&◌, ◌||◌, not, nat_lt, length, is_some, IfOk, IfErr};
ghost use Rattle.std.specs.List.{list_all, list_any};
ghost use Rattle.std.specs.Option.{option_copied};
ghost use Rattle.net_items.specs.Keyed.{IsRising, IsFoundAt, IsGapAt};
ghost use Rattle.net_items.specs.Lookups.{set_at};
ghost use Rattle.net_sets.specs.Sets.{is_distinct as distinct, is_nil as nil, is_end as end_is, has_link as link_there, has_last_link, set_passes};

use net_items::LinkSet;
use net_items::lookups::position_of_set;
use point_codes::PointCode;

/// Whether no number stands twice.
pub fn is_distinct(numbers: &[u8]) -> bool
    ensures { result ≡ distinct numbers.now }
{
    let mut rest = numbers;
    while let Some((first, others)) = rest.split_first() {
        if others.contains(first) {
            return false;
        }
        rest = others;
    }
    true
}

fn are_small(slcs: &[u8]) -> bool
    ensures { result ≡ list_all (λ c. nat_lt c 16) slcs.now }
{
    slcs.iter().all(|slc| *slc < 16)
}

/// Whether a new set may have links of those codes.
pub fn are_good_links(slcs: &[u8]) -> bool
    ensures { result ≡ not (nil slcs.now || not (list_all (λ c. nat_lt c 16) slcs.now && distinct slcs.now)) }
{
    match slcs {
        [] => false,
        [_, ..] => are_small(slcs) && is_distinct(slcs),
    }
}

/// Whether there is a set of an id.
pub fn is_set(sets: &[LinkSet], id: u16) -> bool
    requires { IsRising (λ s. s.id) sets.now }
    ensures { result ≡ is_some (set_at sets.now id) }
{
    position_of_set(sets, id).is_ok()
}

/// Whether a set has a link of a code.
pub fn has_link(slc: u8, set: &LinkSet) -> bool
    ensures { result ≡ link_there slc set.now }
{
    set.links.get(slc).is_some()
}

/// The set of that id.
pub fn find_set(sets: &[LinkSet], id: u16) -> Option<&LinkSet>
    requires { IsRising (λ s. s.id) sets.now }
    ensures { option_copied result ≡ set_at sets.now id }
{
    match position_of_set(sets, id) {
        Ok(at) => Some(&sets[at]),
        Err(_) => None,
    }
}

/// Whether the set of that id has that link.
pub fn set_has_link(sets: &[LinkSet], id: u16, slc: u8) -> bool
    requires { IsRising (λ s. s.id) sets.now }
    ensures { result ≡ set_passes (link_there slc) sets.now id }
{
    match position_of_set(sets, id) {
        Ok(at) => has_link(slc, &sets[at]),
        Err(_) => false,
    }
}

/// Whether a set has no more than one link.
fn has_last(set: &LinkSet) -> bool
    ensures { result ≡ has_last_link set.now }
{
    let links = set.links.listed();
    links.as_slice().len() <= 1
}

/// Whether the set of that id has no more than one link.
pub fn set_has_last_link(sets: &[LinkSet], id: u16) -> bool
    requires { IsRising (λ s. s.id) sets.now }
    ensures { result ≡ set_passes has_last_link sets.now id }
{
    match find_set(sets, id) {
        Some(set) => has_last(set),
        None => false,
    }
}

fn is_end(code: PointCode, set: &LinkSet) -> bool
    ensures { result ≡ end_is code set.now }
{
    set.a == code || set.b == code
}

/// Whether the point is an end of a set.
pub fn is_any_end(sets: &[LinkSet], code: PointCode) -> bool
    ensures { result ≡ list_any (end_is code) sets.now }
{
    sets.iter().any(|set| is_end(code, set))
}
