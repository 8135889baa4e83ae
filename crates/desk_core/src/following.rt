//! The network now, and what events touch, kept together.

ghost use Rattle.std.specs.Prelude.{◌≡◌, ◌<◌, ◌≤◌, ◌+◌, true, None, IfOk, IsOk, OnOk, OnErr, is_some, length, drop};
ghost use Rattle.std.specs.Vec.{vec_len, vec_capacity};
ghost use Rattle.net_items.specs.Lookups.{plan_at};
ghost use Rattle.net_data.specs.Kinds.{is_link};
ghost use Rattle.net_data.specs.Edits.{changed, refusal_of};
ghost use Rattle.dirty_sets.specs.Touch.{IsTouchIndex};
ghost use Rattle.dirty_sets.specs.Marks.{IsNoted};
ghost use Rattle.dirty_sets.specs.Touched.{marks_of};
ghost use Rattle.desk_core.specs.Inside.{IsSameMarked};

use dirty_sets::Touched;
use link_state::LinkChange;
use net_data::sorting::kept_plan;
use net_data::{Event, Net};
use net_items::Plan;
use std::alloc::{AllocError, Global};

/// Applies an accepted change of a link. It takes no memory.
fn follow_link(
    latest: &mut Net,
    touched: &mut Touched,
    event: &Event,
    id: u16,
    slc: u8,
    change: LinkChange,
)
    requires index { IsTouchIndex latest.old (marks_of touched.old).index }
    requires accepted { refusal_of latest.old event.now ≡ None }
    requires link { event.now ≡ Event.Link id slc change }
    ensures latest { latest.new ≡ changed latest.old event.now }
    ensures noted { IsNoted latest.old event.now (marks_of touched.old) (marks_of touched.new) }
{
    touched.note(latest, event);
    latest.change_link(id, slc, change);
}

/// Applies an accepted event. Memory first, so that a refusal leaves all as it was.
fn follow_edit(
    alloc: Global,
    latest: &mut Net,
    touched: &mut Touched,
    event: &Event,
) -> Result<(), AllocError>
    requires index { IsTouchIndex latest.old (marks_of touched.old).index }
    requires accepted { refusal_of latest.old event.now ≡ None }
    ensures latest { OnOk result (latest.new ≡ changed latest.old event.now) }
    ensures noted { OnOk result (IsNoted latest.old event.now (marks_of touched.old) (marks_of touched.new)) }
    ensures kept { OnErr result (latest.new ≡ latest.old) }
    ensures same { OnErr result (IsSameMarked (marks_of touched.old) (marks_of touched.new)) }
{
    touched.make_room()?;
    let mut after = latest.copy(alloc)?;
    after.change(alloc, event)?;
    touched.note(latest, event);
    *latest = after;
    Ok(())
}

/// Puts an accepted plan in the place of one of its destination: only the plan is made anew. Memory first, so that a refusal leaves
/// all as it was.
fn follow_plan(
    alloc: Global,
    latest: &mut Net,
    touched: &mut Touched,
    event: &Event,
    plan: &Plan,
) -> Result<(), AllocError>
    requires index { IsTouchIndex latest.old (marks_of touched.old).index }
    requires accepted { refusal_of latest.old event.now ≡ None }
    requires plan { event.now ≡ Event.SetPlan plan.now }
    requires there { is_some (plan_at latest.old.plans plan.now.dest) ≡ true }
    ensures latest { OnOk result (latest.new ≡ changed latest.old event.now) }
    ensures noted { OnOk result (IsNoted latest.old event.now (marks_of touched.old) (marks_of touched.new)) }
    ensures kept { OnErr result (latest.new ≡ latest.old) }
    ensures same { OnErr result (IsSameMarked (marks_of touched.old) (marks_of touched.new)) }
{
    touched.make_room()?;
    let kept = kept_plan(alloc, plan)?;
    touched.note(latest, event);
    latest.replace_plan(plan, kept);
    Ok(())
}

/// Applies an accepted event. A refusal of memory leaves all as it was, and a change of a link meets none.
fn follow(
    alloc: Global,
    latest: &mut Net,
    touched: &mut Touched,
    event: &Event,
) -> Result<(), AllocError>
    requires index { IsTouchIndex latest.old (marks_of touched.old).index }
    requires accepted { refusal_of latest.old event.now ≡ None }
    ensures latest { OnOk result (latest.new ≡ changed latest.old event.now) }
    ensures noted { OnOk result (IsNoted latest.old event.now (marks_of touched.old) (marks_of touched.new)) }
    ensures kept { OnErr result (latest.new ≡ latest.old) }
    ensures same { OnErr result (IsSameMarked (marks_of touched.old) (marks_of touched.new)) }
    ensures no_memory { is_link event.now ≡ true → IsOk result }
{
    match event {
        Event::Link(id, slc, change) => {
            follow_link(latest, touched, event, *id, *slc, *change);
            Ok(())
        }
        Event::SetPlan(plan) if latest.plan(plan.as_plan().dest).is_some() => {
            follow_plan(alloc, latest, touched, event, plan.as_plan())
        }
        _ => follow_edit(alloc, latest, touched, event),
    }
}

/// Room for one more, if none was reserved.
fn make_room(pending: &mut Vec<Event>, spare: u32) -> Result<(), AllocError>
    requires { vec_len pending.old + spare ≤ vec_capacity pending.old }
    ensures items { pending.new.items ≡ pending.old.items }
    ensures ok { OnOk result (vec_len pending.new < vec_capacity pending.new) }
    ensures kept { vec_len pending.new + spare ≤ vec_capacity pending.new }
    ensures succeeds { 0 < spare → IsOk result }
{
    if spare == 0 {
        pending.reserve(1)?;
    }
    Ok(())
}

/// A copy of an event, and room for the event itself.
fn copy_with_room(
    alloc: Global,
    pending: &mut Vec<Event>,
    spare: u32,
    event: &Event,
) -> Result<Event, AllocError>
    requires { vec_len pending.old + spare ≤ vec_capacity pending.old }
    ensures copy { IfOk result (λ e. e ≡ event.now) }
    ensures items { pending.new.items ≡ pending.old.items }
    ensures room { OnOk result (vec_len pending.new < vec_capacity pending.new) }
    ensures kept { vec_len pending.new + spare ≤ vec_capacity pending.new }
    ensures no_memory { is_link event.now ≡ true → 0 < spare → IsOk result }
{
    make_room(pending, spare)?;
    event.copy(alloc)
}

/// Applies an accepted event, and gives a copy of it and room for it among those that are pending. Memory first, so that a
/// refusal leaves all as it was.
pub(crate) fn follow_with_copy(
    alloc: Global,
    pending: &mut Vec<Event>,
    spare: u32,
    latest: &mut Net,
    touched: &mut Touched,
    event: &Event,
) -> Result<Event, AllocError>
    requires room { vec_len pending.old + spare ≤ vec_capacity pending.old }
    requires index { IsTouchIndex latest.old (marks_of touched.old).index }
    requires accepted { refusal_of latest.old event.now ≡ None }
    ensures copy { IfOk result (λ e. e ≡ event.now) }
    ensures items { pending.new.items ≡ pending.old.items }
    ensures room { OnOk result (vec_len pending.new < vec_capacity pending.new) }
    ensures room_kept { vec_len pending.new + spare ≤ vec_capacity pending.new }
    ensures latest { OnOk result (latest.new ≡ changed latest.old event.now) }
    ensures noted { OnOk result (IsNoted latest.old event.now (marks_of touched.old) (marks_of touched.new)) }
    ensures kept { OnErr result (latest.new ≡ latest.old) }
    ensures same { OnErr result (IsSameMarked (marks_of touched.old) (marks_of touched.new)) }
    ensures no_memory { is_link event.now ≡ true → 0 < spare → IsOk result }
{
    let copy = copy_with_room(alloc, pending, spare, event)?;
    follow(alloc, latest, touched, event)?;
    Ok(copy)
}

/// The events without the first ones. The room stays.
pub(crate) fn drop_front(pending: &mut Vec<Event>, count: usize)
    requires { count ≤ length pending.old.items }
    ensures items { pending.new.items ≡ drop count pending.old.items }
    ensures len { vec_len pending.new + count ≡ vec_len pending.old }
    ensures room { vec_capacity pending.new ≡ vec_capacity pending.old }
{
    pending.rotate_left(count);
    let left = pending.len() - count;
    pending.truncate(left);
}
