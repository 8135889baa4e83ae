//! Point codes, and the names and octets of the transfer messages.

pub use point_codes::{BadCode, MsgKind, PointCode, tfm_octets};
