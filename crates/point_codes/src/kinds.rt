//! The transfer messages.

/// What a transfer message says of a destination (Q.704 clauses 13.2 to 13.4).
#[derive(Clone, Copy, Debug, PartialEq, Eq)]
pub enum MsgKind {
    /// Transfer-prohibited.
    Tfp,
    /// Transfer-restricted.
    Tfr,
    /// Transfer-allowed.
    Tfa,
}
