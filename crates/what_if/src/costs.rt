//! What it takes to restore links, and which take least.

ghost use Rattle.std.specs.Prelude.{◌≡◌, ◌+◌, ◌*◌, ◌^◌, ◌<◌, ◌≤◌, ◌∷◌, ◌++◌, [], Some, length, option_to_list};
ghost use Rattle.std.specs.Option.{option_map};
ghost use Rattle.what_if.specs.Mending.{cheaper, cost, least_link as the_least_link, mark_count as the_mark_count, sum_of_costs, takes_less as the_takes_less};

use crate::mending::SetLink;
use link_state::Marks;
use net_items::LinkSet;

/// What it takes to restore links.
#[derive(Clone, Copy, Debug, PartialEq, Eq)]
pub struct Cost {
    /// How many links are restored.
    pub links: u128,
    /// How many of them have failed.
    pub repairs: u128,
    /// How many marks they have in all.
    pub marks: u128,
}

/// How many marks a link has.
fn mark_count(marks: Marks) -> u8
    ensures value { result ≡ the_mark_count marks }
    ensures few { result ≤ 5 }
{
    u8::from(marks.failed)
        + u8::from(marks.blocked_a)
        + u8::from(marks.blocked_b)
        + u8::from(marks.inhibited_a)
        + u8::from(marks.inhibited_b)
}

impl Cost {
    /// What it takes to restore no link.
    const NOTHING: Cost = Cost {
        links: 0,
        repairs: 0,
        marks: 0,
    };

    /// What it takes to restore one link.
    fn of_link(link: SetLink) -> Cost
        ensures value { result ≡ cost (link ∷ []) }
        ensures few { result.marks ≤ 5 }
    {
        Cost {
            links: 1,
            repairs: u128::from(link.link.marks.failed),
            marks: u128::from(mark_count(link.link.marks)),
        }
    }

    /// What both take.
    fn plus(self, other: Cost) -> Cost
        requires links { self.links + other.links < 2 ^ 128 }
        requires repairs { self.repairs + other.repairs < 2 ^ 128 }
        requires marks { self.marks + other.marks < 2 ^ 128 }
        ensures { result ≡ sum_of_costs self other }
    {
        Cost {
            links: self.links + other.links,
            repairs: self.repairs + other.repairs,
            marks: self.marks + other.marks,
        }
    }

    /// What it takes to restore some links.
    fn of(links: &[SetLink]) -> Cost
        ensures value { result ≡ cost links.now }
        ensures few { result.marks ≤ length links.now * 5 }
    {
        let mut sum = Cost::NOTHING;
        for link in links {
            sum = sum.plus(Cost::of_link(*link));
        }
        sum
    }

    /// Whether it is less: fewer links, of as many fewer repairs, and of as many of both fewer marks.
    fn takes_less(self, other: Cost) -> bool
        ensures { result ≡ the_takes_less self other }
    {
        self.links < other.links
            || (self.links == other.links
                && (self.repairs < other.repairs
                    || (self.repairs == other.repairs && self.marks < other.marks)))
    }
}

/// Whether a link, if there is one, and some more take less than others.
pub(crate) fn is_cheaper(front: Option<SetLink>, back: &[SetLink], others: &[SetLink]) -> bool
    ensures { result ≡ the_takes_less (cost (option_to_list front ++ back.now)) (cost others.now) }
{
    let mut sum = Cost::of(back);
    if let Some(link) = front {
        sum = Cost::of_link(link).plus(sum);
    }
    sum.takes_less(Cost::of(others))
}

/// Of two links the one that takes less, or the first; or the one that there is.
fn cheaper_link(one: Option<SetLink>, other: SetLink) -> SetLink
    ensures { Some (result ∷ []) ≡ cheaper (option_map (λ l. l ∷ []) one) (Some (other ∷ [])) }
{
    match one {
        Some(link) if !Cost::of_link(other).takes_less(Cost::of_link(link)) => link,
        _ => other,
    }
}

/// The link of a set that takes least, the first of those.
pub(crate) fn least_link(set: &LinkSet) -> Option<SetLink>
    ensures { option_map (λ l. l ∷ []) result ≡ the_least_link set.now.id set.now.links }
{
    let links = set.links.listed();
    let mut least = None;
    for link in links.as_slice() {
        let other = SetLink {
            id: set.id,
            link: *link,
        };
        least = Some(cheaper_link(least, other));
    }
    least
}
