//! A network as tables, for people who have a spreadsheet.
//!
//! 1. A table is a CSV text: a header record, and then a record for each entry. The header is exactly this, in this order
//!    (own): points `code,kind,mate`; sets `id,a,b,links`; routes `destination,point,class,via`; the network's own `key,value`.
//! 2. A record of points is a signalling point code, `sep` or `stp`, and its mate's code or nothing. A mated pair may be
//!    named at both points or at one (own).
//! 3. A record of sets is an id, the codes of two points, and links with their marks between single spaces; the crate
//!    `tokens` has the tokens (own).
//! 4. A record of routes is one via of one class of one row; the normal route is class 1 (Q.704 clause 4). For a row with the
//!    mate flag one more record has the class `mate` and no via. The records of a row stand together, its classes from 1 to at
//!    most 4 with one or two vias each and the mate last, and the rows of a destination stand together (own).
//! 5. The network's own table has its network indicator `ni`, its option `tfr`, `plan` for each plan without rows, and, where they are
//!    wanted, `rank` for each row. Without ranks each row gets the least one by which each via's row is lower and the rows of mates,
//!    where one may use the other, are equal (own).
//! 6. The network is what these events make of the empty one: AddPoint for each point; Pair for each mated pair; for each
//!    set AddSet and the changes that its links need; SetPlan for each destination, and once more with the ranks where they are given. What
//!    the network's rules refuse is refused here.
//!
//! 7. The first thing that is wrong is told with the table, the line and the column, as an editor counts them: a line feed ends
//!    a line, and a column is a character (own).
//!
//! Stands on `net_building`, `plan_ranks`, `tokens`, `csv`. A change here also changes specs/ (About, Events, Faults, Places, Records, Tables,
//! Values), proofs/, must-fail/ and wrong-bodies/.
#![tactic(auto)]

mod about;
mod bare;
mod building;
mod faults;
mod given;
pub mod laws;
mod lists;
mod places;
mod plans;
mod reading;
mod records;
mod routes;
mod rows;
mod values;
mod writing;

pub use faults::{Reason, Sheet, SheetFault};
pub use laws::csv_law;
pub use reading::read_sheets;
pub use writing::{write_network, write_points, write_routes, write_sets};
