//! Changes of link sets and of their links.

ghost use Rattle.std.specs.Prelude.{◌≡◌, ◌<◌, OnOk, OnErr, All, Some, is_some, true};
ghost use Rattle.net_items.specs.Keyed.{IsRising, put, without};
ghost use Rattle.net_items.specs.Lookups.{set_at};
ghost use Rattle.net_sets.specs.Sets.{with_change, with_link, without_link, has_link, set_passes, edit_set, new_links as the_new_links};
ghost use Rattle.link_state.specs.Marks.{marks_after};

use link_state::{LinkChange, Marks};
use net_items::lookups::position_of_set;
use net_items::{Link, LinkSet, Links};
use std::alloc::AllocError;

/// Puts in a set, in the place of one of its id.
pub fn put_set(sets: &mut Vec<LinkSet>, set: LinkSet) -> Result<(), AllocError>
    requires { IsRising (λ s. s.id) sets.old.items }
    ensures ok { OnOk result (sets.new.items ≡ put (λ s. s.id) set sets.old.items) }
    ensures err { OnErr result (sets.new.items ≡ sets.old.items) }
{
    match position_of_set(sets, set.id) {
        Ok(at) => {
            sets[at] = set;
        }
        Err(at) => {
            sets.insert(at, set)?;
        }
    }
    Ok(())
}

/// Changes the marks of a link.
pub fn change_link(set: &mut LinkSet, slc: u8, change: LinkChange)
    requires { has_link slc set.old ≡ true }
    ensures { set.new ≡ with_change slc change set.old }
{
    set.links.validity();
    match set.links.get(slc) {
        Some(link) => set.links.put(Link {
            marks: link.marks.after(change),
            ..link
        }),
        None => unreachable!(),
    }
}

/// Changes the marks of a link of the set of that id.
pub fn change_link_of_set(sets: &mut Vec<LinkSet>, id: u16, slc: u8, change: LinkChange)
    requires rising { IsRising (λ s. s.id) sets.old.items }
    requires there { set_passes (has_link slc) sets.old.items id ≡ true }
    ensures { sets.new.items ≡ edit_set id (with_change slc change) sets.old.items }
{
    match position_of_set(sets, id) {
        Ok(at) => {
            let set = &mut sets[at];
            change_link(set, slc, change);
        }
        Err(_) => unreachable!(),
    }
}

fn add_link(set: &mut LinkSet, slc: u8)
    requires { slc < 16 }
    ensures { set.new ≡ with_link slc set.old }
{
    set.links.put(Link {
        slc,
        marks: Marks::FAILED,
    });
}

/// Adds a link with the failed mark alone to the set of that id.
pub fn add_link_to_set(sets: &mut Vec<LinkSet>, id: u16, slc: u8)
    requires rising { IsRising (λ s. s.id) sets.old.items }
    requires there { is_some (set_at sets.old.items id) ≡ true }
    requires small { slc < 16 }
    ensures { sets.new.items ≡ edit_set id (with_link slc) sets.old.items }
{
    match position_of_set(sets, id) {
        Ok(at) => {
            let set = &mut sets[at];
            add_link(set, slc);
        }
        Err(_) => unreachable!(),
    }
}

fn remove_link(set: &mut LinkSet, slc: u8)
    ensures { set.new ≡ without_link slc set.old }
{
    set.links.remove(slc);
}

/// Removes a link of the set of that id.
pub fn remove_link_of_set(sets: &mut Vec<LinkSet>, id: u16, slc: u8)
    requires rising { IsRising (λ s. s.id) sets.old.items }
    requires there { set_passes (has_link slc) sets.old.items id ≡ true }
    ensures { sets.new.items ≡ edit_set id (without_link slc) sets.old.items }
{
    match position_of_set(sets, id) {
        Ok(at) => {
            let set = &mut sets[at];
            remove_link(set, slc);
        }
        Err(_) => unreachable!(),
    }
}

/// Takes out the set of that id.
pub fn remove_set(sets: &mut Vec<LinkSet>, id: u16) -> LinkSet
    requires rising { IsRising (λ s. s.id) sets.old.items }
    requires there { is_some (set_at sets.old.items id) ≡ true }
    ensures set { set_at sets.old.items id ≡ Some result }
    ensures rest { sets.new.items ≡ without (λ s. s.id) id sets.old.items }
{
    match position_of_set(sets, id) {
        Ok(at) => sets.remove(at),
        Err(_) => unreachable!(),
    }
}

/// The links of those codes in rising code, each with the failed mark alone.
pub fn new_links(slcs: &[u8]) -> Links
    requires { All (λ c. c < 16) slcs.now }
    ensures { result ≡ the_new_links slcs.now }
{
    let mut links = Links::none();
    let mut position = slcs.len();
    while position > 0 {
        position -= 1;
        links.put(Link {
            slc: slcs[position],
            marks: Marks::FAILED,
        });
    }
    links
}
