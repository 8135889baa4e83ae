//! A table of one row, read back, and the links of a row over two vias.

use crate::parts::{CLEAR, code, set_between};
use link_state::Marks;
use point_codes::{BadCode, MsgKind};
use profile::{
    LinkRef, Message, Messages, RowLinks, RowState, RowStates, SetLinks, Table, profile_law,
};
use route_choice::Choice;
use sls_share::Carried;
use std::alloc::{AllocError, Global};
use std::test::Fail;

/// The message that the point 0-0-7 is told.
fn new_message() -> Result<Message, BadCode> {
    let to = code("0-0-7")?;
    Ok(Message {
        kind: MsgKind::Tfp,
        to,
    })
}

/// A table of one row, of the receiver of a message without routes, which has the message in force.
fn table_of_one(alloc: Global, message: Message) -> Result<Table, AllocError> {
    let messages = Messages::from_vec(vec![in alloc; message]?);
    let row = RowState {
        point: message.to,
        choice: Choice::NONE,
        links: RowLinks::none(),
        messages,
    };
    Ok(Table {
        dest: message.to,
        rows: RowStates::from_vec(vec![in alloc; row]?),
    })
}

/// The only row of a table, if it has one row.
fn only_row(table: &Table) -> Option<&RowState> {
    match table.rows.as_slice() {
        [state] => Some(state),
        _ => None,
    }
}

/// The only message of a row, if it has one message.
fn only_message(state: &RowState) -> Option<Message> {
    match state.messages.as_slice() {
        [message] => Some(*message),
        _ => None,
    }
}

/// The only message of the only row of the table that the message makes.
fn message_read_back(alloc: Global) -> Result<Option<Message>, Fail> {
    let table = table_of_one(alloc, new_message()?)?;
    Ok(only_message(only_row(&table).ok_or("no row")?))
}

#[test]
fn reads_messages_of_a_table(rt: HostRuntime) -> Result<(), Fail> {
    profile_law();
    let wanted = new_message()?;
    let read = message_read_back(rt.alloc())?;
    assert_eq!(rt; read, Some(wanted));
    Ok(())
}

/// The link that carries the share number 0 in the only row of the table that the message makes.
fn link_read_back(alloc: Global) -> Result<Option<LinkRef>, Fail> {
    let table = table_of_one(alloc, new_message()?)?;
    Ok(only_row(&table).ok_or("no row")?.links.at(0))
}

#[test]
fn reads_no_links_of_a_table(rt: HostRuntime) -> Result<(), Fail> {
    assert_eq!(rt; link_read_back(rt.alloc())?, None);
    Ok(())
}

/// A set of this id, whose links 0 and 3 have these marks, with the links that carry its share numbers.
fn carried_by(id: u16, marks: [Marks; 2]) -> Result<Option<SetLinks>, Fail> {
    let set = set_between(id, "0-0-7", "0-0-7", marks)?;
    let carried = Carried::of(&set);
    Ok(Some(SetLinks { id, carried }))
}

/// Set 7 with both links, and set 8 with its first one failed.
fn new_links(size: u8, used: [bool; 2]) -> Result<RowLinks, Fail> {
    let seven = carried_by(7, [CLEAR, CLEAR])?;
    let eight = carried_by(8, [Marks::FAILED, CLEAR])?;
    Ok(RowLinks::new(size, used, [seven, eight]))
}

/// The link of this code in the set of this id.
fn link(id: u16, slc: u8) -> Option<LinkRef> {
    Some(LinkRef { id, slc })
}

#[test]
fn shares_links_over_both_vias(rt: HostRuntime) -> Result<(), Fail> {
    let both = new_links(2, [true, true])?;
    let links = [both.at(0), both.at(1), both.at(2), both.at(15)];
    assert_eq!(rt; links, [link(7, 0), link(8, 3), link(7, 3), link(8, 3)]);
    Ok(())
}

#[test]
fn shares_links_over_one_via(rt: HostRuntime) -> Result<(), Fail> {
    let first = new_links(2, [true, false])?;
    let single = new_links(1, [true, false])?;
    let none = RowLinks::none();
    let links = [first.at(1), first.at(3), single.at(1), none.at(15)];
    assert_eq!(rt; links, [link(7, 0), link(7, 3), link(7, 3), None]);
    Ok(())
}

/// Whether the links of a row equal their copy, and those over its first via alone.
fn equal_links() -> Result<(bool, bool), Fail> {
    let both = new_links(2, [true, true])?;
    let first = new_links(2, [true, false])?;
    Ok((both.equals(&both.copy()), both.equals(&first)))
}

#[test]
fn links_equal_their_copy_alone(rt: HostRuntime) -> Result<(), Fail> {
    assert_eq!(rt; equal_links()?, (true, false));
    Ok(())
}

/// The only message of the only row that a table gives back.
fn message_given_back(table: Table) -> Option<Message> {
    let mut rows = table.rows.into_vec();
    let mut messages = rows.pop()?.messages.into_vec();
    messages.pop()
}

#[test]
fn a_table_gives_its_lists_back(rt: HostRuntime) -> Result<(), Fail> {
    let table = table_of_one(rt.alloc(), new_message()?)?;
    let wanted = new_message()?;
    assert_eq!(rt; message_given_back(table), Some(wanted));
    Ok(())
}
