//! What is kept to tell what moved.

ghost use Rattle.std.specs.Prelude.{◌≡◌, IfOk, map};
ghost use Rattle.std.specs.Arc.{arc_value};
ghost use Rattle.std.specs.Option.{option_copied, option_map};
ghost use Rattle.answers.specs.Changes.{earlier};
ghost use Rattle.desk_console.specs.Watch.{among, changes_told, is_replaced as replaced, kept_at, newest, notice as the_notice, unwatched, watched};

use answers::{Answer, Boxed, Moved, Reason, answer_changes, moved_since};
use net_versions::Version;
use script_words::Moves;
use std::alloc::{AllocError, Global};
use std::marker::Model;
use std::sync::Arc;

/// The last eight versions before the published one, and whether what a publication moves is told behind its reply. Contracts see their
/// numbers and their networks.
#[derive(Drop)]
pub struct Watch {
    kept: [Option<Arc<Version>>; 8],
    is_on: bool,
}

impl Model for Watch {
    ghost use Rattle.std.specs.Prelude.{map};
    ghost use Rattle.std.specs.Arc.{arc_value};
    ghost use Rattle.std.specs.Option.{option_map};
    ghost use Rattle.net_versions.specs.Versions.{VersionValue};
    ghost use Rattle.answers.specs.Changes.{earlier};
    ghost use Rattle.desk_console.specs.Watch.{WatchValue};

    ghost Value = { WatchValue };

    ghost view = { λ w. record { kept = map (option_map (λ a. earlier (arc_value a))) w.kept; is_on = w.is_on } };
}

/// Whether a command that found a version published leaves another.
fn is_replaced(old: &Version, new: &Version) -> bool
    ensures { result ≡ replaced old.now new.now }
{
    new.number() != old.number()
}

/// The version of a number among kept ones, if it is there.
fn find_kept(kept: &[Option<Arc<Version>>], number: u64) -> Option<&Version>
    ensures { option_map earlier (option_copied result) ≡ among (map (option_map (λ version. earlier (arc_value version))) kept.now) number }
{
    let (first, rest) = kept.split_first()?;
    match first {
        Some(version) if version.number() == number => Some(version),
        _ => find_kept(rest, number),
    }
}

impl Watch {
    /// Nothing was published yet, and nothing is told behind replies.
    pub fn new() -> Watch
        ensures { result ≡ unwatched }
    {
        Watch {
            kept: [None, None, None, None, None, None, None, None],
            is_on: false,
        }
    }

    /// Tells what a publication moves behind its reply from now on, or no more.
    pub fn set(&mut self, is_on: bool)
        ensures { self.new ≡ record self.old { is_on = is_on } }
    {
        self.is_on = is_on;
    }

    /// The version before.
    fn newest(&self) -> Option<&Version>
        ensures { option_map earlier (option_copied result) ≡ newest self.entry.now }
    {
        self.kept[0].as_deref()
    }

    /// The version of a number, if it is kept.
    fn find(&self, number: u64) -> Option<&Version>
        ensures { option_map earlier (option_copied result) ≡ kept_at self.entry.now number }
    {
        find_kept(&self.kept, number)
    }

    /// What moved since the version before the published one, or since the one of a number, refused if that isn't kept: all of it, or
    /// what is of a kind. It fails if memory is refused.
    pub fn tell(
        &self,
        alloc: Global,
        which: Moves,
        since: Option<u64>,
        version: &Version,
    ) -> Result<Answer, AllocError>
        ensures { IfOk result (λ answer. answer ≡ changes_told self.now which since version.now) }
    {
        let Some(number) = since else {
            return answer_changes(alloc, which, self.newest(), version);
        };
        match self.find(number) {
            Some(before) => answer_changes(alloc, which, Some(before), version),
            None => Ok(Answer::Refused(Reason::NotKept)),
        }
    }

    /// Keeps the version that a command found published, if it leaves another.
    fn keep(&mut self, old: Arc<Version>, new: &Version) -> bool
        ensures kept { self.new ≡ watched self.old (arc_value old) new.now }
        ensures replaced { result ≡ replaced (arc_value old) new.now }
    {
        let is_other = is_replaced(&old, new);
        if is_other {
            self.kept.rotate_right(1);
            self.kept[0] = Some(old);
        }
        is_other
    }

    /// Keeps the version that a command found published, if it leaves another, and gives what is told behind its reply: what
    /// moved, if that is watched. It fails if memory is refused.
    pub fn notice(
        &mut self,
        alloc: Global,
        old: Arc<Version>,
        new: &Version,
    ) -> Result<Option<Boxed<Moved>>, AllocError>
        ensures kept { self.new ≡ watched self.old (arc_value old) new.now }
        ensures notice { IfOk result (λ moved. moved ≡ the_notice self.old (arc_value old) new.now) }
    {
        let is_other = self.keep(old, new);
        if !(self.is_on && is_other) {
            return Ok(None);
        }
        Ok(Some(moved_since(alloc, Moves::All, self.newest(), new)?))
    }
}
