//! The commands that restore links.

ghost use Rattle.std.specs.Prelude.{◌≡◌, ◌++◌, IfOk, OnOk, map, string_bytes};
ghost use Rattle.std.specs.List.{flat_map};
ghost use Rattle.net_items.specs.Keyed.{IsRising};
ghost use Rattle.net_items.specs.declared.items.LinkSet.{LinkSet};
ghost use Rattle.answers.specs.Remedies.{action, action_text, actions, by_text, change_word as word_of, cleared, command_text, end_of as the_end, end_part, link_actions, maker, next_action, point_at_end as the_point, remedy_text};

use crate::codes::{put_number, write_code};
use link_state::End::{First, Second};
use link_state::{End, LinkChange};
use net_items::LinkSet;
use net_items::lookups::position_of_set;
use point_codes::PointCode;
use std::alloc::{AllocError, Global};
use std::marker::Model;
use what_if::SetLink;

/// A change of a link that is to be made, and the point that makes it.
#[derive(Clone, Copy, Debug, PartialEq, Eq)]
pub struct Action {
    /// The id of the link's set.
    pub id: u16,
    /// The link's code.
    pub slc: u8,
    /// The change.
    pub change: LinkChange,
    /// The point at the end that makes it; none if it is made by neither end, as the restoring of a failed link.
    pub by: Option<PointCode>,
}

/// The changes that restore links, in their order.
#[derive(Drop)]
pub struct Remedy {
    list: Vec<Action>,
}

impl Model for Remedy {
    ghost use Rattle.std.specs.Prelude.{List};
    ghost use Rattle.answers.specs.declared.remedies.Action.{Action};

    ghost Value = { List Action };

    ghost view = { λ remedy. remedy.list.items };
}

/// The end that makes a change.
fn end_of(change: LinkChange) -> Option<End>
    ensures { result ≡ the_end change }
{
    match change {
        LinkChange::Fail | LinkChange::Restore => None,
        LinkChange::Block(end)
        | LinkChange::Unblock(end)
        | LinkChange::Inhibit(end)
        | LinkChange::Uninhibit(end) => Some(end),
    }
}

/// The point at an end of a set.
fn point_at_end(set: &LinkSet, end: End) -> PointCode
    ensures { result ≡ the_point set.now end }
{
    match end {
        First => set.a,
        Second => set.b,
    }
}

/// The point that makes a change of a link of the set with this id.
fn maker_of(sets: &[LinkSet], id: u16, change: LinkChange) -> Option<PointCode>
    requires { IsRising (λ (s : LinkSet). s.id) sets.now }
    ensures { result ≡ maker sets.now id change }
{
    let end = end_of(change)?;
    match position_of_set(sets, id) {
        Ok(at) => Some(point_at_end(&sets[at], end)),
        Err(_) => None,
    }
}

impl Remedy {
    /// Adds a change of a link, if it has the mark that the change clears.
    fn clear(
        &mut self,
        sets: &[LinkSet],
        link: SetLink,
        mark: bool,
        change: LinkChange,
    ) -> Result<(), AllocError>
        requires { IsRising (λ (s : LinkSet). s.id) sets.now }
        ensures { OnOk result (self.new ≡ self.old ++ map (action sets.now link) (cleared mark change)) }
    {
        if !mark {
            return Ok(());
        }
        self.list.push(Action {
            id: link.id,
            slc: link.link.slc,
            change,
            by: maker_of(sets, link.id, change),
        })?;
        Ok(())
    }

    /// Adds what restores a link.
    fn restore(&mut self, sets: &[LinkSet], link: SetLink) -> Result<(), AllocError>
        requires { IsRising (λ (s : LinkSet). s.id) sets.now }
        ensures { OnOk result (self.new ≡ self.old ++ link_actions sets.now link) }
    {
        let marks = link.link.marks;
        self.clear(sets, link, marks.failed, LinkChange::Restore)?;
        self.clear(sets, link, marks.blocked_a, LinkChange::Unblock(First))?;
        self.clear(sets, link, marks.blocked_b, LinkChange::Unblock(Second))?;
        self.clear(sets, link, marks.inhibited_a, LinkChange::Uninhibit(First))?;
        self.clear(sets, link, marks.inhibited_b, LinkChange::Uninhibit(Second))
    }

    /// What restores links of these sets.
    pub(crate) fn of(
        alloc: Global,
        sets: &[LinkSet],
        links: &[SetLink],
    ) -> Result<Remedy, AllocError>
        requires { IsRising (λ (s : LinkSet). s.id) sets.now }
        ensures { IfOk result (λ remedy. remedy ≡ actions sets.now links.now) }
    {
        let mut remedy = Remedy {
            list: Vec::new(alloc),
        };
        for link in links {
            remedy.restore(sets, *link)?;
        }
        Ok(remedy)
    }

    /// The changes as a slice.
    pub fn as_slice(&self) -> &[Action]
        ensures { result.now ≡ self.now }
    {
        self.list.as_slice()
    }
}

/// The first word of the command of a change.
fn change_word(change: LinkChange) -> &'static str
    ensures { result.now ≡ word_of change }
{
    match change {
        LinkChange::Fail => "fail",
        LinkChange::Restore => "restore",
        LinkChange::Block(_) => "block",
        LinkChange::Unblock(_) => "unblock",
        LinkChange::Inhibit(_) => "inhibit",
        LinkChange::Uninhibit(_) => "uninhibit",
    }
}

/// How an end is written after a space; nothing if there is none.
fn end_word(end: Option<End>) -> &'static str
    ensures { result.now ≡ end_part end }
{
    match end {
        Some(First) => " a",
        Some(Second) => " b",
        None => "",
    }
}

/// Adds the point that makes a change, if there is one.
fn put_by(text: &mut String, by: Option<PointCode>) -> Result<(), AllocError>
    ensures { OnOk result (string_bytes text.new ≡ string_bytes text.old ++ by_text by) }
{
    let Some(code) = by else {
        return Ok(());
    };
    text.push_str(" by ")?;
    write_code(text, code)
}

/// Adds the command of a change.
#[tactic(auto, using(crate::proofs::RemedyLemmas::command_parts))]
fn put_command(text: &mut String, action: Action) -> Result<(), AllocError>
    ensures { OnOk result (string_bytes text.new ≡ string_bytes text.old ++ command_text action) }
{
    text.push_str(change_word(action.change))?;
    text.push(' ')?;
    put_number(text, action.id)?;
    text.push(' ')?;
    put_number(text, u16::from(action.slc))?;
    text.push_str(end_word(end_of(action.change)))
}

/// The command of a change, as a text.
pub fn write_command(alloc: Global, action: Action) -> Result<String, AllocError>
    ensures { IfOk result (λ text. string_bytes text ≡ command_text action) }
{
    let mut text = String::new(alloc);
    put_command(&mut text, action)?;
    Ok(text)
}

/// Adds a change with the point that makes it.
fn put_action(text: &mut String, action: Action) -> Result<(), AllocError>
    ensures { OnOk result (string_bytes text.new ≡ string_bytes text.old ++ action_text action) }
{
    let by = action.by;
    put_command(text, action)?;
    put_by(text, by)
}

/// Adds changes, each after ` ; `.
fn put_next(text: &mut String, actions: &[Action]) -> Result<(), AllocError>
    ensures { OnOk result (string_bytes text.new ≡ string_bytes text.old ++ flat_map next_action actions.now) }
{
    for action in actions {
        text.push_str(" ; ")?;
        put_action(text, *action)?;
    }
    Ok(())
}

/// Adds the commands that restore links, if restoring does it.
pub(crate) fn put_remedy(text: &mut String, remedy: &Option<Remedy>) -> Result<(), AllocError>
    ensures { OnOk result (string_bytes text.new ≡ string_bytes text.old ++ remedy_text remedy.now) }
{
    let Some(remedy) = remedy else {
        return text.push_str("remedy none");
    };
    let Some((first, rest)) = remedy.as_slice().split_first() else {
        return text.push_str("remedy ok");
    };
    text.push_str("remedy ")?;
    put_action(text, *first)?;
    put_next(text, rest)
}
