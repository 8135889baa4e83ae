//! Questions about a row of a table.

use point_codes::PointCode;

/// What is asked of a row.
#[derive(Clone, Copy, Debug, PartialEq, Eq)]
pub enum Question {
    /// What it uses: its status, its class and the members of the class.
    Status,
    /// The link of each signalling link selection (Q.704 clause 2.3).
    Links,
    /// The transfer messages in force from its point (Q.704 clauses 13.2 to 13.4).
    Messages,
    /// The octets of the message in force from its point to this one (Q.704 clauses 15.7 to 15.9).
    Octets(PointCode),
    /// Why it uses that: what stands for and against each of its vias, and its mate.
    Why,
    /// The links that have to be restored for its point to reach the destination.
    Mend,
    /// The links that have to be restored for its status to be allowed.
    MendAllowed,
    /// The commands that restore the links for its point to reach the destination.
    Remedy,
    /// The commands that restore the links for its status to be allowed.
    RemedyAllowed,
}
