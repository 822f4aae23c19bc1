//! Lists for contracts. A [`Log`] is for what may have no bound, as each refusal since a zone was made: to a contract it has every
//! item that was pushed, in order; when the program runs it has the last one, so it never grows and takes no memory. A [`Listed`] is
//! a vector that contracts see as the list of its items.
ghost use Rattle.std.specs.Prelude.{◌≡◌, [], ◌∷◌, ◌++◌, length};

use std::marker::Model;
use std::snapshot::Snapshot;

// The last item, and what was there before it, which has no bytes.
#[derive(Drop)]
enum Items<T> {
    Nothing,
    After(Snapshot<Items<T>>, T),
}

/// A list that only grows. Contracts see it as its items, the newest at the end. It has room for one item, however many
/// were pushed, and nothing reads them when the program runs.
#[derive(Drop)]
pub struct Log<T> {
    items: Items<T>,
}

impl<T> Model for Log<T> {
    ghost use Rattle.std.specs.Prelude.{List};
    ghost use Rattle.listed.specs.Items.{listed};

    ghost Value = { List T };

    ghost view = { λ l. listed l.items };
}

impl<T: Drop> Log<T> {
    /// A log of nothing.
    pub fn new() -> Log<T>
        ensures { result ≡ [] }
    {
        Log {
            items: Items::Nothing,
        }
    }

    /// Adds an item at the end. What the log held of the item before it is dropped.
    pub fn push(&mut self, item: T)
        ensures { self.new ≡ self.old ++ item ∷ [] }
    {
        let before = Snapshot::of(&self.items);
        self.items = Items::After(before, item);
    }
}

/// A `Vec` that contracts see as the list of its items, without its room. A type that a definition speaks of has
/// its lists so, since two vectors with the same items may differ in their room.
#[derive(Drop)]
pub struct Listed<T> {
    items: Vec<T>,
}

impl<T> Model for Listed<T> {
    ghost use Rattle.std.specs.Prelude.{List};

    ghost Value = { List T };

    ghost view = { λ l. l.items.items };
}

impl<T> Listed<T> {
    /// Takes no memory.
    pub fn from_vec(items: Vec<T>) -> Listed<T>
        ensures { result ≡ items.items }
    {
        Listed { items }
    }

    /// Takes no memory.
    pub fn into_vec(self) -> Vec<T>
        ensures { result.items ≡ self }
    {
        self.items
    }

    /// The items, in order.
    pub fn as_slice(&self) -> &[T]
        ensures { result.now ≡ self.now }
    {
        self.items.as_slice()
    }

    /// How many items there are.
    pub fn len(&self) -> usize
        ensures { result ≡ length self.now }
    {
        self.items.len()
    }
}
