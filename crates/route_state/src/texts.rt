//! Network texts, in and out.

pub use net_saving::save;
pub use net_text::{
    Key, LoadFault, load, load_owned, read_code, read_id, read_kind, read_row, read_slc,
};
