//! Two small networks, codes and sets by their texts.

use net_data::{Event, Net};
use net_items::Slcs;
use net_text::{LoadFault, load};
use point_codes::{BadCode, PointCode};
use std::alloc::{AllocError, Global};

/// Two mated transfer points between three end points, and the plan of 2-1-2.
pub const WORKED: &str = "format = 1
ni = 2
points = ['2-1-1 sep', '2-1-2 sep', '2-1-3 sep', '2-10-1 stp', '2-10-2 stp']
pairs = ['2-10-1 2-10-2']
sets = ['1 2-1-1 2-10-1 0 1', '2 2-1-1 2-10-2 0 1', '3 2-10-1 2-1-2 0 1', '4 2-10-2 2-1-2 0', '5 2-10-1 2-10-2 0', '6 2-10-1 2-1-3 0f']
plans = ['2-1-2 2-1-1:2:2-10-1+2-10-2 2-10-1:1:2-1-2:m 2-10-2:1:2-1-2:m']
";

/// The end point 2-1-1 leads over the transfer point 2-10-1 to the end point 2-1-2, by one link each.
pub const TWO_ENDS: &str = "format = 1
ni = 2
points = ['2-1-1 sep', '2-1-2 sep', '2-10-1 stp']
sets = ['1 2-1-1 2-10-1 0', '2 2-10-1 2-1-2 0']
plans = ['2-1-2 2-1-1:2:2-10-1 2-10-1:1:2-1-2']
";

/// The network of `WORKED`.
pub fn worked(alloc: Global) -> Result<Net, LoadFault> {
    load(alloc, WORKED.as_bytes())
}

/// The network of `TWO_ENDS`.
pub fn two_ends(alloc: Global) -> Result<Net, LoadFault> {
    load(alloc, TWO_ENDS.as_bytes())
}

/// The network of those entries, in format 2.
pub fn net_of(
    alloc: Global,
    points: &str,
    pairs: &str,
    sets: &str,
    plans: &str,
) -> Result<Net, LoadFault> {
    let text = format!(in alloc;
        "format = 2\nni = 0\npoints = [{points}]\npairs = [{pairs}]\nsets = [{sets}]\nplans = [{plans}]\n"
    );
    match text {
        Ok(text) => load(alloc, text.as_bytes()),
        Err(_) => Err(LoadFault::OutOfMemory),
    }
}

/// The code that a text is.
pub fn code(text: &str) -> Result<PointCode, BadCode> {
    PointCode::parse(text.as_bytes())
}

/// The edit that adds a set with these links.
pub fn add_set(
    alloc: Global,
    id: u16,
    a: PointCode,
    b: PointCode,
    slcs: &[u8],
) -> Result<Event, AllocError> {
    let slcs = Slcs::from_vec(alloc, Vec::from_slice(alloc, slcs)?)?;
    Ok(Event::AddSet(id, a, b, slcs))
}
