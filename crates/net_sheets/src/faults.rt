//! What is wrong with tables.

use crate::places::{Spot, start_of_text};
use net_data::Refusal;
use point_codes::PointCode;
use std::alloc::AllocError;

/// One of the tables of a network.
#[derive(Clone, Copy, Debug, PartialEq, Eq)]
pub enum Sheet {
    /// The table of the network itself, `key,value`.
    Network,
    /// The table of points, `code,kind,mate`.
    Points,
    /// The table of sets, `id,a,b,links`.
    Sets,
    /// The table of routes, `destination,point,class,via`.
    Routes,
}

/// What is wrong with a record that says nothing.
#[derive(Clone, Copy)]
pub(crate) enum Flaw {
    /// The text in a column, counted from 1, isn't of its kind.
    Column(u8),
    /// The class is 5.
    FifthClass,
}

/// What is wrong at a place of a table.
#[derive(Debug, Drop)]
pub enum Reason {
    /// It can't be read as CSV, or has another number of fields than the header.
    Csv,
    /// The header isn't that of the table.
    Columns,
    /// The text in a column, counted from 1, isn't of its kind.
    Field(u8),
    /// The class is 5, which answers write for the way over the mate: in a table that has the class `mate`.
    FifthClass,
    /// Keys that don't stand in their order: the network indicator and the option, once each, then plans without rows, and then ranks.
    Keys,
    /// A network indicator above 3.
    Indicator,
    /// A plan without rows of a destination that has one further up.
    PlanThere,
    /// Routes of a destination whose plan has no rows, as the table of the network says.
    PlanBare,
    /// A rank that isn't that of the next row of the plans, or a row for which none is left, or a rank for which no row is.
    RankOrder,
    /// A third via of a class, which has one or two.
    ThirdVia,
    /// A destination whose other routes stand further up, with those of another between.
    SplitDestination,
    /// A point whose other routes to the destination stand further up, with those of another between.
    SplitPoint,
    /// A class that doesn't follow: the classes of a point go up one by one from 1, and `mate` comes last.
    ClassOrder,
    /// The network's rules refuse it.
    Refused(Refusal),
    /// The rows of a plan have no ranks: two mates of which each has the other as a via, or one of them as a via and the other
    /// as its mate.
    MateLoop(PointCode, PointCode),
    /// The rows of a plan have no ranks: points of which each has the next as a via or as its mate, and the last the first.
    Loop(Vec<PointCode>),
    /// The rows of a plan have no ranks, and no loop was found: some row would need a rank above 255.
    TooDeep,
    /// Memory was refused.
    OutOfMemory,
}

impl From<AllocError> for Reason {
    ghost use Rattle.std.specs.Prelude.{◌≡◌};
    ghost use Rattle.net_sheets.specs.declared.faults.Reason.TheVariants.{OutOfMemory};

    ghost from_gives = { λ _ reason. reason ≡ OutOfMemory };

    fn from(_refused: AllocError) -> Reason {
        Reason::OutOfMemory
    }
}

/// What is wrong with the tables of a network.
#[derive(Debug, Drop)]
pub struct SheetFault {
    /// The table.
    pub sheet: Sheet,
    /// The line in it, from 1, as line feeds count it.
    pub line: usize,
    /// The character in the line, from 1: the first of the field that is wrong, or of the record.
    pub column: usize,
    /// What is wrong there.
    pub reason: Reason,
}

/// What is wrong at a spot of one table.
#[derive(Drop)]
pub(crate) struct SpotFault {
    /// The spot.
    pub spot: Spot,
    /// What is wrong there.
    pub reason: Reason,
}

impl From<AllocError> for SpotFault {
    ghost use Rattle.std.specs.Prelude.{◌≡◌};
    ghost use Rattle.net_sheets.specs.declared.faults.Reason.TheVariants.{OutOfMemory};

    ghost from_gives = { λ _ fault. fault.reason ≡ OutOfMemory };

    fn from(_refused: AllocError) -> SpotFault {
        SpotFault {
            spot: start_of_text(),
            reason: Reason::OutOfMemory,
        }
    }
}
