//! A network that is shared, and what the table of one destination reads of it.

pub use excerpts::{Ends, Excerpt, ExcerptFault, Frozen, SharedExcerpt};
