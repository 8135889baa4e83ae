//! The links that a signalling link selection takes.

pub use path_trace::{TraceFault, trace};
pub use profile::{Hop, Hops, Trace};
