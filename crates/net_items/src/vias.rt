//! The vias of a class.

ghost use Rattle.std.specs.Prelude.{◌≡◌, ◌++◌, ◌∷◌, [], OnOk, OnErr, IfOk};
ghost use Rattle.net_items.specs.Vias.{vias_in};

use point_codes::PointCode;
use std::alloc::{AllocError, Global};
use std::marker::Model;

/// Vias in order, of which two stand in place.
#[derive(Debug, Default, Drop)]
pub(crate) enum ViaList {
    /// None.
    #[default]
    None,
    /// One.
    One([PointCode; 1]),
    /// Two.
    Two([PointCode; 2]),
    /// Any number.
    More(Box<Vec<PointCode>>),
}

impl ViaList {
    /// The vias of a slice.
    fn from_slice(alloc: Global, vias: &[PointCode]) -> Result<ViaList, AllocError>
        ensures { IfOk result (λ c. vias_in c ≡ vias.now) }
    {
        match vias {
            [] => Ok(ViaList::None),
            [one] => Ok(ViaList::One([*one])),
            [one, other] => Ok(ViaList::Two([*one, *other])),
            _ => {
                let list = Vec::from_slice(alloc, vias)?;
                Ok(ViaList::More(Box::new(alloc, list)?))
            }
        }
    }

    /// These vias and one more.
    fn with(&self, alloc: Global, via: PointCode) -> Result<ViaList, AllocError>
        ensures { IfOk result (λ c. vias_in c ≡ vias_in self.now ++ via ∷ []) }
    {
        match self.as_slice() {
            [] => Ok(ViaList::One([via])),
            [one] => Ok(ViaList::Two([*one, via])),
            vias => {
                let mut list = Vec::from_slice(alloc, vias)?;
                list.push(via)?;
                Ok(ViaList::More(Box::new(alloc, list)?))
            }
        }
    }

    /// Adds a via at the end.
    fn push(&mut self, alloc: Global, via: PointCode) -> Result<(), AllocError>
        ensures ok { OnOk result (vias_in self.new ≡ vias_in self.old ++ via ∷ []) }
        ensures err { OnErr result (vias_in self.new ≡ vias_in self.old) }
    {
        if let ViaList::More(list) = self {
            list.push(via)?;
            return Ok(());
        }
        *self = self.with(alloc, via)?;
        Ok(())
    }

    /// The vias as a slice.
    fn as_slice(&self) -> &[PointCode]
        ensures { result.now ≡ vias_in self.now }
    {
        match self {
            ViaList::None => &[],
            ViaList::One(vias) => vias.as_slice(),
            ViaList::Two(vias) => vias.as_slice(),
            ViaList::More(list) => list.as_slice(),
        }
    }
}

/// The vias of a class in order of priority. Two of them need no memory.
#[derive(Debug, Default, Drop)]
pub struct Vias {
    list: ViaList,
}

impl Model for Vias {
    ghost use Rattle.std.specs.Prelude.{ℕ, List};
    ghost use Rattle.net_items.specs.Vias.{vias_in};

    ghost Value = { List ℕ };

    ghost view = { λ v. vias_in v.list };
}

impl Vias {
    /// No vias.
    pub fn new() -> Vias
        ensures { result ≡ [] }
    {
        Vias {
            list: ViaList::None,
        }
    }

    /// One via.
    pub fn of_one(via: PointCode) -> Vias
        ensures { result ≡ via ∷ [] }
    {
        Vias {
            list: ViaList::One([via]),
        }
    }

    /// Two vias.
    pub fn of_two(first: PointCode, second: PointCode) -> Vias
        ensures { result ≡ first ∷ second ∷ [] }
    {
        Vias {
            list: ViaList::Two([first, second]),
        }
    }

    /// A copy of these vias.
    pub fn from_slice(alloc: Global, vias: &[PointCode]) -> Result<Vias, AllocError>
        ensures { IfOk result (λ v. v ≡ vias.now) }
    {
        Ok(Vias {
            list: ViaList::from_slice(alloc, vias)?,
        })
    }

    /// Adds a via at the end.
    pub fn push(&mut self, alloc: Global, via: PointCode) -> Result<(), AllocError>
        ensures ok { OnOk result (self.new ≡ self.old ++ via ∷ []) }
        ensures err { OnErr result (self.new ≡ self.old) }
    {
        self.list.push(alloc, via)
    }

    /// The vias as a slice.
    pub fn as_slice(&self) -> &[PointCode]
        ensures { result.now ≡ self.now }
    {
        self.list.as_slice()
    }
}
