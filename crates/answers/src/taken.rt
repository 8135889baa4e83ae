//! The answer to the change of a whole set or point.

ghost use Rattle.std.specs.Prelude.{◌≡◌, ◌++◌, OnOk, string_bytes};
ghost use Rattle.answers.specs.Answers.{all_taken_text};

use crate::codes::put_numbered;
use net_data::Event;
use net_items::Listing;
use std::alloc::AllocError;

/// Events that were accepted one after the other.
pub type TakenEvents = Listing<Event>;

/// The events that the change of a whole set or point means, all accepted, and the numbers of the first and the last.
#[derive(Drop)]
pub struct AllTaken {
    /// The number of the first.
    pub first: u64,
    /// The number of the last.
    pub last: u64,
    /// The events.
    pub events: TakenEvents,
}

/// Adds the numbers of the first and the last. It takes no memory but that of the text.
pub(crate) fn put_all_taken(text: &mut String, taken: &AllTaken) -> Result<(), AllocError>
    ensures { OnOk result (string_bytes text.new ≡ string_bytes text.old ++ all_taken_text taken.now) }
{
    put_numbered(text, "taken ", taken.first)?;
    put_numbered(text, " to ", taken.last)
}
