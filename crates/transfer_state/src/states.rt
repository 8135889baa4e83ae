//! The links and the messages of a row with its choice.

ghost use Rattle.std.specs.Prelude.{◌≡◌, ◌==◌, ◌<◌, ◌&&◌, not, All, IfOk, find, is_some, true};
ghost use Rattle.link_sets.specs.Availability.{connected};
ghost use Rattle.profile.specs.Local.{is_member as is_member_of, message as message_of, is_at as is_at_of};
ghost use Rattle.profile.specs.Valid.{IsSmall, HasFewLinks, HasLinksInOrder};
ghost use Rattle.profile.specs.Whole.{size_of as size_by, member as member_of, messages_of as messages_by, state_of as state_by};
ghost use Rattle.excerpts.specs.Excerpt.{source_of};
ghost use Rattle.transfer_state.specs.Members.{set_to};

use excerpts::Excerpt;
use net_items::Row;
use point_codes::{MsgKind, PointCode};
use profile::{Message, Messages, RowLinks, SetLinks};
use route_choice::{Choice, Far};
use sls_share::Carried;
use std::alloc::{AllocError, Global};

/// The configured number of vias of a class of a row, 1 to 5, 0 if the row has none; the mate, class 5, counts as one.
pub fn size_of(row: &Row, class: u8) -> u8
    requires { IsSmall row.now }
    ensures { result ≡ size_by row.now class }
{
    if class == 5 {
        return 1;
    }
    let position = usize::from(class).saturating_sub(1);
    let classes = row.classes.as_slice();
    if position < classes.len() {
        classes[position].as_slice().len() as u8
    } else {
        0
    }
}

/// The configured number of vias of the class that a choice uses. With a second member it is two, and the row's classes
/// needn't be fetched.
pub(crate) fn used_size(row: &Row, choice: &Choice) -> u8
    requires small { IsSmall row.now }
    requires two { is_some (member_of choice.now 1) ≡ true → size_by row.now choice.now.class ≡ 2 }
    ensures { result ≡ size_by row.now choice.now.class }
{
    if member(choice, 1).is_some() {
        2
    } else {
        size_of(row, choice.class)
    }
}

/// The member in a place of a choice, 0 or 1.
pub(crate) fn member(choice: &Choice, position: usize) -> Option<PointCode>
    requires { position < 2 }
    ensures { result ≡ member_of choice.now position }
{
    choice.members[position]
}

/// The set to a member, with the links that carry its share numbers.
fn set_over(e: &Excerpt, point: PointCode, member: Option<PointCode>) -> Option<SetLinks>
    ensures { result ≡ set_to e.now.network.sets point member }
{
    e.validity();
    let z = member?;
    let set = e.set_between(point, z)?;
    Some(SetLinks {
        id: set.id,
        carried: Carried::of(set),
    })
}

/// The links of the sixteen signalling link selections (Q.704 clause 2.3), by the configured number of vias of the class
/// in use.
#[tactic(auto, using(crate::proofs::MemberLemmas::links_made))]
pub(crate) fn links_of(e: &Excerpt, row: &Row, choice: &Choice, size: u8) -> RowLinks
    requires { size ≡ size_by row.now choice.now.class }
    ensures { result ≡ (state_by (source_of e.now) row.now choice.now).links }
{
    e.validity();
    let first = member(choice, 0);
    let second = member(choice, 1);
    let used = [first.is_some(), second.is_some()];
    let first_set = set_over(e, row.point, first);
    let second_set = set_over(e, row.point, second);
    RowLinks::new(size, used, [first_set, second_set])
}

fn is_at(member: Option<PointCode>, neighbour: PointCode) -> bool
    ensures { result ≡ is_at_of neighbour member }
{
    match member {
        Some(v) => v == neighbour,
        None => false,
    }
}

/// Whether a point is a member of a choice.
pub fn is_member(neighbour: PointCode, choice: &Choice) -> bool
    ensures { result ≡ is_member_of neighbour choice.now }
{
    is_at(choice.members[0], neighbour) || is_at(choice.members[1], neighbour)
}

/// The message in force from a point with this choice to a point: prohibited if that point is used, and else the
/// status (Q.704 clauses 13.2 to 13.4).
pub(crate) fn message(choice: &Choice, neighbour: PointCode) -> MsgKind
    ensures { result ≡ message_of choice.now neighbour }
{
    if is_member(neighbour, choice) {
        return MsgKind::Tfp;
    }
    match choice.status {
        Far::Allowed => MsgKind::Tfa,
        Far::Restricted => MsgKind::Tfr,
        Far::Prohibited => MsgKind::Tfp,
    }
}

/// Whether a point tells another of the destination: a transfer point does, to each neighbour but the destination.
fn sends(e: &Excerpt, point: PointCode, neighbour: PointCode) -> bool
    ensures { result ≡ ((source_of e.now).is_stp point && (not (neighbour == (source_of e.now).dest) && connected (source_of e.now).sets point neighbour)) }
{
    e.is_stp(point) && neighbour != e.dest() && e.is_connected(point, neighbour)
}

/// The message in force from a row's point to another, if it sends one.
pub(crate) fn message_to(
    e: &Excerpt,
    row: &Row,
    choice: &Choice,
    neighbour: PointCode,
) -> Option<Message>
    ensures { result ≡ find (λ m. m.to == neighbour) (messages_by (source_of e.now) row.now choice.now) }
{
    // The proof reads the code's range from this.
    let _number = neighbour.number();
    if sends(e, row.point, neighbour) {
        Some(Message {
            kind: message(choice, neighbour),
            to: neighbour,
        })
    } else {
        None
    }
}

/// Room for so many messages is made at once where any are sent: most points have no more neighbours.
const FEW_NEIGHBOURS: usize = 8;

/// For how many messages of a point room is made.
fn room_for_messages(e: &Excerpt, point: PointCode) -> usize {
    if e.is_stp(point) { FEW_NEIGHBOURS } else { 0 }
}

/// The messages in force from a row's point, in rising code of the receiver: an end point sends none.
pub(crate) fn messages_of(
    alloc: Global,
    e: &Excerpt,
    row: &Row,
    choice: &Choice,
) -> Result<Messages, AllocError>
    ensures { IfOk result (λ messages. messages ≡ messages_by (source_of e.now) row.now choice.now) }
{
    let mut list = Vec::with_capacity(alloc, room_for_messages(e, row.point))?;
    if e.is_stp(row.point) {
        for z in e.neighbours(row.point) {
            if z != e.dest() {
                list.push(Message {
                    kind: message(choice, z),
                    to: z,
                })?;
            }
        }
    }
    Ok(Messages::from_vec(list))
}
