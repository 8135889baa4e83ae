//! Values in their order, which contracts see as a list.

ghost use Rattle.std.specs.Prelude.{◌≡◌};

use std::marker::Model;

/// Values in their order. Contracts see a list.
#[derive(Debug, Drop)]
pub struct Listing<T> {
    list: Vec<T>,
}

impl<T> Model for Listing<T> {
    ghost use Rattle.std.specs.Prelude.{List};

    ghost Value = { List T };

    ghost view = { λ listing. listing.list.items };
}

impl<T> Listing<T> {
    /// These values.
    pub fn from_vec(list: Vec<T>) -> Listing<T>
        ensures { result ≡ list.items }
    {
        Listing { list }
    }

    /// The values in a vector. It takes no memory.
    pub fn into_vec(self) -> Vec<T>
        ensures { result.items ≡ self }
    {
        let Listing { list } = self;
        list
    }

    /// The values as a slice.
    pub fn as_slice(&self) -> &[T]
        ensures { result.now ≡ self.now }
    {
        self.list.as_slice()
    }
}
