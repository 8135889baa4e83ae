//! The marks of a link.

ghost use Rattle.std.specs.Prelude.{◌≡◌, ◌≤◌};
ghost use Rattle.link_state.specs.Marks.{marks_after, is_clear, case_of};

/// An end of a link set: its first or its second point, as the set was added.
#[derive(Clone, Copy, Debug, PartialEq, Eq)]
pub enum End {
    /// The set's first point.
    First,
    /// The set's second point.
    Second,
}

/// The marks of a link (Q.704 clause 3.2).
#[derive(Clone, Copy, Debug, Default, PartialEq, Eq)]
pub struct Marks {
    /// Failed, or inactive.
    pub failed: bool,
    /// Blocked by the first end.
    pub blocked_a: bool,
    /// Blocked by the second end.
    pub blocked_b: bool,
    /// Inhibited by the first end.
    pub inhibited_a: bool,
    /// Inhibited by the second end.
    pub inhibited_b: bool,
}

/// A change of a link's state.
#[derive(Clone, Copy, Debug, PartialEq, Eq)]
pub enum LinkChange {
    /// The link fails.
    Fail,
    /// The link is restored.
    Restore,
    /// An end blocks the link.
    Block(End),
    /// An end unblocks the link.
    Unblock(End),
    /// An end inhibits the link.
    Inhibit(End),
    /// An end uninhibits the link.
    Uninhibit(End),
}

impl Marks {
    /// The marks of a new link: failed alone (own).
    pub const FAILED: Marks = Marks {
        failed: true,
        blocked_a: false,
        blocked_b: false,
        inhibited_a: false,
        inhibited_b: false,
    };

    /// The marks after a change. Setting a set mark, or clearing a clear one, changes nothing.
    pub fn after(self, change: LinkChange) -> Marks
        ensures { result ≡ marks_after change self }
    {
        let mut marks = self;
        match change {
            LinkChange::Fail => marks.failed = true,
            LinkChange::Restore => marks.failed = false,
            LinkChange::Block(End::First) => marks.blocked_a = true,
            LinkChange::Block(End::Second) => marks.blocked_b = true,
            LinkChange::Unblock(End::First) => marks.blocked_a = false,
            LinkChange::Unblock(End::Second) => marks.blocked_b = false,
            LinkChange::Inhibit(End::First) => marks.inhibited_a = true,
            LinkChange::Inhibit(End::Second) => marks.inhibited_b = true,
            LinkChange::Uninhibit(End::First) => marks.inhibited_a = false,
            LinkChange::Uninhibit(End::Second) => marks.inhibited_b = false,
        }
        marks
    }

    /// Whether no mark is set (Q.704 clause 3.2).
    pub fn available(self) -> bool
        ensures { result ≡ is_clear self }
    {
        !(self.failed || self.blocked_a || self.blocked_b || self.inhibited_a || self.inhibited_b)
    }

    /// The case of unavailability, 1 to 7, or 0 if the link is available.
    pub fn case(self) -> u8
        ensures value { result ≡ case_of self }
        ensures in_range { result ≤ 7 }
    {
        let failed = if self.failed { 1 } else { 0 };
        let blocked = if self.blocked_a || self.blocked_b {
            2
        } else {
            0
        };
        let inhibited = if self.inhibited_a || self.inhibited_b {
            4
        } else {
            0
        };
        failed + blocked + inhibited
    }
}
