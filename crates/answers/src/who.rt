//! How many events were accepted through each seat of a desk with many sessions.

ghost use Rattle.std.specs.Prelude.{◌≡◌, ◌++◌, IfOk, OnOk, string_bytes};
ghost use Rattle.std.specs.List.{flat_map};
ghost use Rattle.answers.specs.Who.{seat_counts, seat_word, who_text};

use crate::answer::Answer;
use crate::codes::put_numbered;
use crate::text::Text;
use net_items::Listing;
use std::alloc::{AllocError, Global};
use std::marker::Model;
use std::sync::Arc;

/// The names of the seats of a desk, in their order.
#[derive(Drop)]
pub struct SeatNames {
    list: Arc<Vec<Text>>,
}

impl Model for SeatNames {
    ghost use Rattle.std.specs.Prelude.{ℕ, List};
    ghost use Rattle.std.specs.Arc.{arc_value};

    ghost Value = { List (List ℕ) };

    ghost view = { λ names. (arc_value names.list).items };
}

impl SeatNames {
    /// These names.
    ///
    /// # Errors
    ///
    /// `AllocError` if memory to share them is refused.
    pub fn from_vec(alloc: Global, list: Vec<Text>) -> Result<SeatNames, AllocError>
        ensures { IfOk result (λ names. names ≡ list.items) }
    {
        let list = Arc::new(alloc, list)?;
        Ok(SeatNames { list })
    }

    /// The same names, which are shared.
    ///
    /// # Errors
    ///
    /// `AllocError` if they can't be shared once more.
    pub fn share(&self) -> Result<SeatNames, AllocError>
        ensures { IfOk result (λ names. names ≡ self.now) }
    {
        let list = Arc::try_clone(&self.list)?;
        Ok(SeatNames { list })
    }

    /// The names as a slice.
    fn as_slice(&self) -> &[Text]
        ensures { result.now ≡ self.now }
    {
        self.list.as_slice()
    }
}

/// How many events were accepted through a seat.
#[derive(Drop)]
pub struct SeatCount {
    /// The name of the seat.
    pub name: Text,
    /// How many events were accepted through it, or 2^64 - 1 if they are more.
    pub events: u64,
}

/// The counts of seats.
pub type SeatCounts = Listing<SeatCount>;

/// The counts of seats, each with the name of its seat.
fn name_counts(alloc: Global, names: &[Text], counts: &[u64]) -> Result<Vec<SeatCount>, AllocError>
    ensures { IfOk result (λ list. list.items ≡ seat_counts names.now counts.now) }
{
    let mut list = Vec::new(alloc);
    for (name, events) in names.iter().zip(counts) {
        list.push(SeatCount {
            name: name.copy(alloc)?,
            events: *events,
        })?;
    }
    Ok(list)
}

/// The answer to who is there: the names of the seats, each with how many events were accepted through it.
pub fn answer_who(alloc: Global, names: &SeatNames, counts: &[u64]) -> Result<Answer, AllocError>
    ensures { IfOk result (λ answer. answer ≡ Answer.Who (seat_counts names.now counts.now)) }
{
    let list = name_counts(alloc, names.as_slice(), counts)?;
    Ok(Answer::Who(SeatCounts::from_vec(list)))
}

/// Adds a seat with its count, after a space.
fn put_seat(text: &mut String, count: &SeatCount) -> Result<(), AllocError>
    ensures { OnOk result (string_bytes text.new ≡ string_bytes text.old ++ seat_word count.now) }
{
    text.push(' ')?;
    text.push_str(count.name.as_str())?;
    put_numbered(text, ":", count.events)
}

/// Adds seats with their counts, each after a space.
fn put_seats(text: &mut String, counts: &[SeatCount]) -> Result<(), AllocError>
    ensures { OnOk result (string_bytes text.new ≡ string_bytes text.old ++ flat_map seat_word counts.now) }
{
    for count in counts {
        put_seat(text, count)?;
    }
    Ok(())
}

/// Adds the counts of all seats.
pub(crate) fn put_who(text: &mut String, counts: &SeatCounts) -> Result<(), AllocError>
    ensures { OnOk result (string_bytes text.new ≡ string_bytes text.old ++ who_text counts.now) }
{
    text.push_str("who")?;
    put_seats(text, counts.as_slice())
}
