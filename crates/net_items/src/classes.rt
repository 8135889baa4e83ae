//! The classes of a row.

ghost use Rattle.std.specs.Prelude.{◌≡◌, ◌∷◌, [], IfOk};
ghost use Rattle.net_items.specs.Classes.{classes_in};

use crate::vias::Vias;
use std::alloc::{AllocError, Global};
use std::marker::Model;

/// Classes in order: one stands in place, two stand side by side elsewhere.
#[derive(Debug, Default, Drop)]
pub(crate) enum ClassList {
    /// None.
    #[default]
    None,
    /// One.
    One([Vias; 1]),
    /// Two.
    Two(Box<[Vias; 2]>),
    /// Any number.
    More(Box<Vec<Vias>>),
}

impl ClassList {
    /// The classes as a slice.
    fn as_slice(&self) -> &[Vias]
        ensures { result.now ≡ classes_in self.now }
    {
        match self {
            ClassList::None => &[],
            ClassList::One(classes) => classes.as_slice(),
            ClassList::Two(classes) => classes.as_slice(),
            ClassList::More(list) => list.as_slice(),
        }
    }
}

/// The classes of a row, the first first. One of them needs no memory.
#[derive(Debug, Default, Drop)]
pub struct Classes {
    list: ClassList,
}

impl Model for Classes {
    ghost use Rattle.std.specs.Prelude.{ℕ, List};
    ghost use Rattle.net_items.specs.Classes.{classes_in};

    ghost Value = { List (List ℕ) };

    ghost view = { λ c. classes_in c.list };
}

impl Classes {
    /// No classes.
    pub fn new() -> Classes
        ensures { result ≡ [] }
    {
        Classes {
            list: ClassList::None,
        }
    }

    /// One class.
    pub fn of_one(vias: Vias) -> Classes
        ensures { result ≡ vias ∷ [] }
    {
        Classes {
            list: ClassList::One([vias]),
        }
    }

    /// Two classes.
    pub fn of_two(alloc: Global, first: Vias, second: Vias) -> Result<Classes, AllocError>
        ensures { IfOk result (λ c. c ≡ first ∷ second ∷ []) }
    {
        Ok(Classes {
            list: ClassList::Two(Box::new(alloc, [first, second])?),
        })
    }

    /// These classes.
    pub fn from_vec(alloc: Global, list: Vec<Vias>) -> Result<Classes, AllocError>
        ensures { IfOk result (λ c. c ≡ list.items) }
    {
        Ok(Classes {
            list: ClassList::More(Box::new(alloc, list)?),
        })
    }

    /// The classes as a slice.
    pub fn as_slice(&self) -> &[Vias]
        ensures { result.now ≡ self.now }
    {
        self.list.as_slice()
    }
}
