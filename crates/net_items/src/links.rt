//! A link of a set, and the links of a set.

ghost use Rattle.std.specs.Prelude.{◌≡◌, ◌<◌, ◌≤◌, ◌==◌, ◌↔◌, ◌++◌, ◌∷◌, [], ℕ, length, not, All, IsTrue};
ghost use Rattle.std.specs.List.{list_any};
ghost use Rattle.std.specs.Option.{IfSome};
ghost use Rattle.link_state.specs.Marks.{is_clear};
ghost use Rattle.net_items.specs.Keyed.{IsRising, at_key, put, without};
ghost use Rattle.net_items.specs.Links.{has_bit, marks_in, IsMask, IsWithBit, IsWithMarks};

use link_state::Marks;
use std::marker::Model;

/// A signalling link: its signalling link code, 0 to 15 in a valid network, and its marks (Q.704 clauses 2.2, 3.2).
#[derive(Clone, Copy, Debug, Default, PartialEq, Eq)]
pub struct Link {
    /// The signalling link code.
    pub slc: u8,
    /// The link's marks.
    pub marks: Marks,
}

/// The marks of the links of a set: for each mark a bit for each of the sixteen signalling link codes.
#[derive(Clone, Copy, Debug, Default, PartialEq, Eq)]
pub struct MarkBits {
    failed: u16,
    blocked_a: u16,
    blocked_b: u16,
    inhibited_a: u16,
    inhibited_b: u16,
}

/// Whether the bit of a signalling link code is set.
fn is_set(bits: u16, slc: u8) -> bool
    requires { slc < 16 }
    ensures { result ≡ has_bit bits slc }
{
    bits >> slc & 1 == 1
}

/// The bits with that of a signalling link code set or not.
fn with_bit(bits: u16, slc: u8, set: bool) -> u16
    requires { slc < 16 }
    ensures { IsWithBit bits slc set result }
{
    if set {
        bits | 1 << slc
    } else {
        bits & !(1 << slc)
    }
}

impl MarkBits {
    /// The marks of the link of a signalling link code.
    fn marks(&self, slc: u8) -> Marks
        requires { slc < 16 }
        ensures { result ≡ marks_in self.now slc }
    {
        Marks {
            failed: is_set(self.failed, slc),
            blocked_a: is_set(self.blocked_a, slc),
            blocked_b: is_set(self.blocked_b, slc),
            inhibited_a: is_set(self.inhibited_a, slc),
            inhibited_b: is_set(self.inhibited_b, slc),
        }
    }

    /// A bit for each link that has a mark.
    #[tactic(auto, using(crate::proofs::LinkLemmas::marked_is))]
    fn any(&self) -> u16
        ensures { (slc : ℕ) → not (has_bit result slc) ≡ is_clear (marks_in self.now slc) }
    {
        self.failed | self.blocked_a | self.blocked_b | self.inhibited_a | self.inhibited_b
    }

    /// The bits with those marks of the link of a signalling link code.
    fn with(&self, slc: u8, marks: Marks) -> MarkBits
        requires { slc < 16 }
        ensures { IsWithMarks self.now slc marks result }
    {
        MarkBits {
            failed: with_bit(self.failed, slc, marks.failed),
            blocked_a: with_bit(self.blocked_a, slc, marks.blocked_a),
            blocked_b: with_bit(self.blocked_b, slc, marks.blocked_b),
            inhibited_a: with_bit(self.inhibited_a, slc, marks.inhibited_a),
            inhibited_b: with_bit(self.inhibited_b, slc, marks.inhibited_b),
        }
    }
}

fn are_same_links(a: &[Link], b: &[Link]) -> bool
    ensures { IsTrue result ↔ (a.now ≡ b.now) }
{
    a == b
}

/// The links of a set, at most one of each of the sixteen signalling link codes, in rising code.
///
/// They take twelve bytes: a bit for each code that tells whether the link is there, and as many for each mark.
#[derive(Debug, Drop)]
pub struct Links {
    there: u16,
    marked: MarkBits,
}

impl Model for Links {
    ghost use Rattle.std.specs.Prelude.{List};
    ghost use Rattle.net_items.specs.declared.links.Link.{Link};
    ghost use Rattle.net_items.specs.Links.{links_in};

    ghost Value = { List Link };

    ghost view = { λ l. links_in l.there l.marked };
}

/// Links in a list.
#[derive(Drop)]
pub struct LinkList {
    list: [Link; 16],
    count: usize,
}

impl Model for LinkList {
    ghost use Rattle.std.specs.Prelude.{◌≤◌, List, take};
    ghost use Rattle.net_items.specs.declared.links.Link.{Link};

    ghost Value = { List Link };

    ghost view = { λ l. take l.count l.list };

    ghost invariant = { λ l. l.count ≤ 16 };
}

impl LinkList {
    /// No links.
    fn none() -> LinkList
        ensures { result ≡ [] }
    {
        LinkList {
            list: [Link::default(); 16],
            count: 0,
        }
    }

    /// Puts a link behind the others.
    fn push(&mut self, link: Link)
        requires { length self.old < 16 }
        ensures { self.new ≡ self.old ++ link ∷ [] }
    {
        self.list[self.count] = link;
        self.count += 1;
    }

    /// The links as a slice.
    pub fn as_slice(&self) -> &[Link]
        ensures { result.now ≡ self.now }
    {
        &self.list[..self.count]
    }
}

impl Links {
    /// No links.
    #[tactic(auto, using(crate::proofs::LinkLemmas::none_there))]
    pub fn none() -> Links
        ensures { result ≡ [] }
    {
        Links {
            there: 0,
            marked: MarkBits::default(),
        }
    }

    /// A copy of these links. It takes no memory.
    pub fn copy(&self) -> Links
        ensures { result ≡ self.now }
    {
        Links {
            there: self.there,
            marked: self.marked,
        }
    }

    /// What all links of a set keep: their codes rise, and are below 16, so that there are at most sixteen. It does nothing when it runs.
    #[tactic(auto, using(crate::proofs::LinkLemmas::links_rise, crate::proofs::LinkLemmas::links_small, crate::proofs::LinkLemmas::links_few))]
    pub fn validity(&self)
        ensures rising { IsRising (λ l. l.slc) self.now }
        ensures small { All (λ l. l.slc < 16) self.now }
        ensures few { length self.now ≤ 16 }
    {
        // The proof reads the bits from this.
        let _there = self.there;
    }

    /// The link of a signalling link code.
    #[tactic(auto, using(crate::proofs::LinkLemmas::link_there, crate::proofs::LinkLemmas::link_absent, crate::proofs::LinkLemmas::link_beyond))]
    pub fn get(&self, slc: u8) -> Option<Link>
        ensures found { result ≡ at_key (λ l. l.slc) slc self.now }
        ensures within { IfSome result (λ l. l.slc < 16) }
    {
        let there = self.there;
        if slc < 16 && is_set(there, slc) {
            let marks = self.marked.marks(slc);
            return Some(Link { slc, marks });
        }
        None
    }

    /// Puts in a link, in the place of one of its code.
    #[tactic(auto, using(crate::proofs::LinkLemmas::put_is))]
    pub fn put(&mut self, link: Link)
        requires { link.slc < 16 }
        ensures { self.new ≡ put (λ l. l.slc) link self.old }
    {
        self.there = with_bit(self.there, link.slc, true);
        self.marked = self.marked.with(link.slc, link.marks);
    }

    /// Removes the link of that code, if it is there.
    #[tactic(auto, using(crate::proofs::LinkLemmas::without_is, crate::proofs::LinkLemmas::without_beyond))]
    pub fn remove(&mut self, slc: u8)
        ensures { self.new ≡ without (λ l. l.slc) slc self.old }
    {
        if slc < 16 {
            self.there = with_bit(self.there, slc, false);
        }
    }

    /// Whether a link has no mark.
    #[tactic(auto, using(crate::proofs::LinkLemmas::any_clear))]
    pub fn any_available(&self) -> bool
        ensures { result ≡ list_any (λ l. is_clear l.marks) self.now }
    {
        self.there & !self.marked.any() != 0
    }

    /// Which links have no mark: bit i stands for the link at position i in rising code.
    pub fn mask(&self) -> u16
        ensures { IsMask self.now result }
    {
        let marked = self.marked.any();
        let mut mask = 0;
        let mut position = 0u8;
        for slc in 0..16u8 {
            if self.there >> slc == 0 {
                return mask;
            }
            if is_set(self.there, slc) {
                mask = with_bit(mask, position, !is_set(marked, slc));
                position += 1;
            }
        }
        mask
    }

    /// A bit for each link, at its signalling link code.
    pub fn codes(&self) -> u16
        ensures { (slc : ℕ) → slc < 16 → has_bit result slc ≡ list_any (λ l. l.slc == slc) self.now }
    {
        self.there
    }

    /// The links in a list.
    #[tactic(auto, using(crate::proofs::LinkLemmas::links_to_none, crate::proofs::LinkLemmas::links_to_few, crate::proofs::LinkLemmas::links_to_with, crate::proofs::LinkLemmas::links_to_without, crate::proofs::LinkLemmas::links_to_all))]
    pub fn listed(&self) -> LinkList
        ensures { result ≡ self.now }
    {
        let mut list = LinkList::none();
        for slc in 0..16u8 {
            if is_set(self.there, slc) {
                let marks = self.marked.marks(slc);
                list.push(Link { slc, marks });
            }
        }
        list
    }

    /// Whether these are the same links.
    pub fn equals(&self, other: &Links) -> bool
        ensures { IsTrue result ↔ (self.now ≡ other.now) }
    {
        if self.there == other.there && self.marked == other.marked {
            return true;
        }
        are_same_links(self.listed().as_slice(), other.listed().as_slice())
    }
}
