//! Lists of items: small types over a vector, which contracts see as lists.
ghost use Rattle.std.specs.Prelude.{◌≡◌, ◌==◌, ◌↔◌, ◌<◌, [], ◌∷◌, ◌++◌, length, Some, OnOk, OnErr, IsTrue, slice_get};
ghost use Rattle.std.specs.List.{list_any};

use std::alloc::{AllocError, Global};
use std::marker::Model;

/// A list of items, which contracts see as a list of the items' own values.
///
/// It is made from a vector and gives it back, both without taking memory. The list keeps its
/// allocator, so only `new` is handed one.
#[derive(Debug, Drop)]
pub struct ItemList<T> {
    items: Vec<T>,
}

impl<T> Model for ItemList<T> {
    ghost use Rattle.std.specs.Prelude.{List};

    ghost Value = { List T };

    ghost view = { λ l. l.items.items };
}

impl<T> ItemList<T> {
    /// The empty list.
    pub fn new(alloc: Global) -> Self
        ensures { result ≡ [] }
    {
        ItemList {
            items: Vec::new(alloc),
        }
    }

    /// The list of a vector's items.
    pub fn from_vec(items: Vec<T>) -> Self
        ensures { result ≡ items.items }
    {
        ItemList { items }
    }

    /// The vector of the items.
    pub fn into_vec(self) -> Vec<T>
        ensures { result.items ≡ self }
    {
        let ItemList { items } = self;
        items
    }

    /// Puts an item at the end. After want of memory the list is as it was.
    pub fn push(&mut self, item: T) -> Result<(), AllocError>
    where
        T: Drop,
        ensures ok { OnOk result (self.new ≡ self.old ++ item ∷ []) }
        ensures err { OnErr result (self.new ≡ self.old) }
    {
        self.items.push(item)?;
        Ok(())
    }

    /// The number of items.
    pub fn len(&self) -> usize
        ensures { result ≡ length self.now }
    {
        self.items.len()
    }

    /// Whether there is no item.
    pub fn is_empty(&self) -> bool
        ensures { IsTrue result ↔ (length self.now ≡ 0) }
    {
        self.items.len() == 0
    }

    /// The item at a place, counted from 0.
    pub fn item(&self, place: usize) -> &T
        requires { place < length self.now }
        ensures { slice_get self.now place ≡ Some result.now }
    {
        &self.items[place]
    }

    /// The items as a slice.
    pub fn as_slice(&self) -> &[T]
        ensures { result.now ≡ self.now }
    {
        self.items.as_slice()
    }
}

/// A list of bytes.
pub type ByteList = ItemList<u8>;

/// A list of whole numbers.
pub type NumberList = ItemList<u32>;

/// A list of the numbers of calls that fail, counted from 1.
pub type FailList = ItemList<u64>;

impl ItemList<u8> {
    /// Puts bytes at the end. After want of memory the list is as it was.
    pub fn extend(&mut self, more: &[u8]) -> Result<(), AllocError>
        ensures ok { OnOk result (self.new ≡ self.old ++ more.now) }
        ensures err { OnErr result (self.new ≡ self.old) }
    {
        self.items.extend_from_slice(more)
    }
}

impl ItemList<u64> {
    /// Whether the number stands in the list.
    pub fn contains(&self, number: u64) -> bool
        ensures { result ≡ list_any (λ x. x == number) self.now }
    {
        self.items.iter().any(|x| *x == number)
    }
}
