ghost use Rattle.std.specs.Prelude.{◌≡◌, ◌↔◌, List, [], ◌∷◌, ◌++◌, length, slice_get, IsTrue, OnOk, OnErr, IfOk};
ghost use Rattle.std.specs.Option.{option_copied};

use crate::copies::Copied;
use crate::memory::Memory;
use std::alloc::Global;
use std::marker::Model;

/// A list of values. Contracts see it as the list: no capacity, pointer or allocator is part of its
/// value.
#[derive(Drop, Debug)]
pub struct Seq<T> {
    items: Vec<T>,
}

impl<T> Model for Seq<T> {
    ghost use Rattle.std.specs.Prelude.{List};
    ghost use Rattle.std.specs.Coded.{coded_list};

    ghost Value = { List T };

    ghost coded = { coded_list T.code };

    ghost view = { λ s. s.items.items };
}

impl<T> Seq<T> {
    pub fn new(alloc: Global) -> Seq<T>
        ensures { result ≡ [] }
    {
        Seq {
            items: Vec::new(alloc),
        }
    }

    /// An empty list with room for so many items.
    pub fn with_capacity(alloc: Global, room: usize) -> Result<Seq<T>, Memory>
        ensures { IfOk result (λ list. list ≡ []) }
    {
        Ok(Seq {
            items: Vec::with_capacity(alloc, room)?,
        })
    }

    /// An empty list on the same allocator.
    pub fn empty(&self) -> Seq<T>
        ensures { result ≡ [] }
    {
        Seq {
            items: Vec::new(*self.items.allocator()),
        }
    }

    /// The same items. It takes no memory.
    pub fn from_vec(items: Vec<T>) -> Seq<T>
        ensures { result ≡ items.items }
    {
        Seq { items }
    }

    /// The same items. It takes no memory.
    pub fn into_vec(self) -> Vec<T>
        ensures { result.items ≡ self }
    {
        let Seq { items } = self;
        items
    }

    /// The allocator that the list keeps, for what is made beside it. There is one global
    /// allocator, so nothing is said of it.
    pub fn allocator(&self) -> Global {
        *self.items.allocator()
    }

    pub fn as_slice(&self) -> &[T]
        ensures { result.now ≡ self.now }
    {
        self.items.as_slice()
    }

    pub fn len(&self) -> usize
        ensures { result ≡ length self.now }
    {
        self.items.len()
    }

    pub fn is_empty(&self) -> bool
        ensures { IsTrue result ↔ (self.now ≡ []) }
    {
        self.items.is_empty()
    }

    /// The item at a place, if the list has one there.
    pub fn get(&self, at: usize) -> Option<&T>
        ensures { option_copied result ≡ slice_get self.now at }
    {
        self.items.get(at)
    }

    /// Adds an item at the end. Where memory runs out the list is unchanged.
    pub fn push(&mut self, item: T) -> Result<(), Memory>
    where
        T: Drop,
        ensures ok { OnOk result (self.new ≡ self.old ++ item ∷ []) }
        ensures err { OnErr result (self.new ≡ self.old) }
    {
        self.items.push(item)?;
        Ok(())
    }
}

impl<T: Copy> Seq<T> {
    /// The items of the slice.
    pub fn from_slice(alloc: Global, items: &[T]) -> Result<Seq<T>, Memory>
        ensures { IfOk result (λ list. list ≡ items.now) }
    {
        let mut list = Seq::new(alloc);
        list.extend_from_slice(items)?;
        Ok(list)
    }

    /// Adds the items at the end. Where memory runs out the list is unchanged.
    pub fn extend_from_slice(&mut self, more: &[T]) -> Result<(), Memory>
        ensures ok { OnOk result (self.new ≡ self.old ++ more.now) }
        ensures err { OnErr result (self.new ≡ self.old) }
    {
        self.items.extend_from_slice(more)?;
        Ok(())
    }
}

impl<T: Copied + Drop> Seq<T> {
    /// An equal list.
    pub fn copy(&self) -> Result<Seq<T>, Memory>
        ensures { IfOk result (λ c. c ≡ self.now) }
    {
        let mut items = Vec::with_capacity(self.allocator(), self.items.len())?;
        for item in &self.items {
            items.push(item.copied()?)?;
        }
        Ok(Seq { items })
    }
}

impl<T: Copied + Drop> Copied for Seq<T> {
    fn copied(&self) -> Result<Seq<T>, Memory> {
        self.copy()
    }
}

/// The bytes of a file, or of a part of one.
pub type Bytes = Seq<u8>;

/// A name as the class file has it: a list of UTF-16 code units.
pub type Name = Seq<u16>;
