//! The table of one destination: made, and checked.

pub use transfer_state::{
    Choices, Clause, Complaint, Kept, LinkRef, Message, Messages, Routing, RowLinks, RowState,
    RowStates, SharedRouting, Table, check, check_kept, table_of,
};
