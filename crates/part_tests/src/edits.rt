//! Edits by their lines, and what tests ask of an edit and of a network.

use net_data::{Event, Net};
use sample_nets::{net_of, worked};
use script_words::read_event;
use std::alloc::Global;
use std::test::Fail;
use tokens::split_words;

/// The event of a line that says one.
pub(crate) fn event(alloc: Global, line: &str) -> Result<Event, Fail> {
    let words = split_words(alloc, line.as_bytes())?;
    Ok(read_event(alloc, words.as_slice())?.ok_or("no event")?)
}

/// Makes the edit that a line says. A refusal fails the test.
pub(crate) fn edit(alloc: Global, net: &mut Net, line: &str) -> Result<(), Fail> {
    let event = event(alloc, line)?;
    Ok(net.apply(alloc, &event)?)
}

/// Makes the edit that a line says, and then the one that turns it back: whether the first changes the network, and
/// whether the network is as it was after the second. A refusal fails the test.
pub(crate) fn turned_back(
    alloc: Global,
    net: &mut Net,
    line: &str,
    back: &str,
) -> Result<(bool, bool), Fail> {
    let before = net.copy(alloc)?;
    edit(alloc, net, line)?;
    let changes = !net.equals(&before);
    edit(alloc, net, back)?;
    Ok((changes, net.equals(&before)))
}

/// Whether a network is the one of those entries.
pub(crate) fn is_net_of(
    alloc: Global,
    net: &Net,
    points: &str,
    pairs: &str,
    sets: &str,
) -> Result<bool, Fail> {
    let wanted = net_of(alloc, points, pairs, sets, "")?;
    Ok(net.equals(&wanted))
}

/// Whether a network is the worked one.
pub(crate) fn is_worked(alloc: Global, net: &Net) -> Result<bool, Fail> {
    let wanted = worked(alloc)?;
    Ok(net.equals(&wanted))
}
