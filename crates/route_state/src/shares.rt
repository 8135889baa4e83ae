//! How traffic is shared by signalling link selection.

pub use sls_share::{Carried, link_for, member_for, probe};
