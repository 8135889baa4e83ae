//! Lists inside plain data, each a small type that a contract sees as a list.

ghost use Rattle.std.specs.Prelude.{◌≡◌, List, ℕ, map, IfOk};

use crate::classes::Classes;
use point_codes::PointCode;
use std::alloc::{AllocError, Global};
use std::marker::Model;

/// What a plan says of one point.
#[derive(Debug, Drop)]
pub struct Row {
    /// The point.
    pub point: PointCode,
    /// Its rank, 1 to 255 in a valid network: each via is the destination or of lower rank (own).
    pub rank: u8,
    /// Whether it may use its mate.
    pub mate: bool,
    /// Its classes of vias, the first first; at most four in a valid network.
    pub classes: Classes,
}

/// The rows of a plan, and the codes of their points side by side: a search among these reads no row.
#[derive(Debug, Drop)]
pub struct Rows {
    list: Vec<Row>,
    codes: Vec<PointCode>,
}

impl Model for Rows {
    ghost use Rattle.std.specs.Prelude.{◌≡◌, List, map};
    ghost use Rattle.net_items.specs.declared.lists.Row.{Row};

    ghost Value = { List Row };

    ghost view = { λ r. r.list.items };

    ghost invariant = { λ r. r.codes.items ≡ map (λ (row : Row). row.point) r.list.items };
}

/// The codes of the points of rows, in their places.
fn codes_of(alloc: Global, rows: &[Row]) -> Result<Vec<PointCode>, AllocError>
    ensures { IfOk result (λ codes. codes.items ≡ map (λ r. r.point) rows.now) }
{
    rows.iter().map(|row| row.point).collect(alloc)
}

impl Rows {
    /// These rows.
    pub fn from_vec(alloc: Global, list: Vec<Row>) -> Result<Rows, AllocError>
        ensures { IfOk result (λ rows. rows ≡ list.items) }
    {
        let codes = codes_of(alloc, &list)?;
        Ok(Rows { list, codes })
    }

    /// The rows in a vector. It takes no memory.
    pub fn into_vec(self) -> Vec<Row>
        ensures { result.items ≡ self }
    {
        let Rows { list, .. } = self;
        list
    }

    /// The rows as a slice.
    pub fn as_slice(&self) -> &[Row]
        ensures { result.now ≡ self.now }
    {
        self.list.as_slice()
    }

    /// The codes of the points of the rows, in their places.
    pub fn codes(&self) -> &[PointCode]
        ensures { result.now ≡ map (λ r. r.point) self.now }
    {
        self.codes.as_slice()
    }
}

/// Link codes, in the order given. They stand in a box, so that an event is small.
#[derive(Debug, Drop)]
pub struct Slcs {
    list: Box<Vec<u8>>,
}

impl Model for Slcs {
    ghost Value = { List ℕ };

    ghost view = { λ l. l.list.value.items };
}

impl Slcs {
    /// These link codes.
    pub fn from_vec(alloc: Global, list: Vec<u8>) -> Result<Slcs, AllocError>
        ensures { IfOk result (λ slcs. slcs ≡ list.items) }
    {
        Ok(Slcs {
            list: Box::new(alloc, list)?,
        })
    }

    /// The link codes in a vector. It takes no memory.
    pub fn into_vec(self) -> Vec<u8>
        ensures { result.items ≡ self }
    {
        let Slcs { list } = self;
        Box::into_inner(list)
    }

    /// The link codes as a slice.
    pub fn as_slice(&self) -> &[u8]
        ensures { result.now ≡ self.now }
    {
        self.list.as_slice()
    }
}
