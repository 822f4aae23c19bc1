ghost use Rattle.std.specs.Prelude.{◌≡◌, ◌<◌, IfOk};
ghost use Rattle.deed_book.specs.Book.{book_table};
ghost use Rattle.deed_book.specs.Deed.{deed_table, no_of};
ghost use Rattle.keyed_lock.specs.KeyedLock.{lock_key};

use deed_book::{Book, Deed, Memory};
use keyed_lock::{KeyedLock, LockRule};
use std::alloc::Global;
use std::snapshot::Snapshot;
use std::sync::Wait;

/// Which right it is: the book of its keg's rights, and its number. For contracts alone.
#[derive(Drop)]
pub struct RightKey {
    pub rights: Snapshot<Book>,
    pub no: u8,
}

/// The deed is the right that the key names.
pub struct RightOfKey;

impl LockRule<Deed, RightKey> for RightOfKey {
    ghost use Rattle.std.specs.Prelude.{◌≡◌};
    ghost use Rattle.deed_book.specs.Book.{book_table};
    ghost use Rattle.deed_book.specs.Deed.{deed_table, no_of};

    ghost keeps = { λ key right. (deed_table right ≡ book_table key.rights.value) × (no_of right ≡ key.no) };
}

/// A right to a zone that a keg hasn't yet. Threads share a primary zone by reference, which they can't do with a deed, so
/// the deed lies behind a lock. Nobody takes that until the right is used up.
#[derive(Drop)]
pub struct KeptRight {
    no: u8,
    deed: KeyedLock<Deed, RightKey, RightOfKey>,
    ghost named: { (lock_key deed).no ≡ no },
    pub ghost below: { no < 8 },
}

impl KeptRight {
    ghost use Rattle.uma_zone.specs.Right.{right_table, right_no, IsRightOf, KeepsRight};

    /// Keeps a right to a zone of the keg whose rights `rights` names.
    ///
    /// # Errors
    ///
    /// `Memory`: out of memory.
    pub fn new(alloc: Global, rights: Snapshot<Book>, right: Deed) -> Result<KeptRight, Memory>
        requires { IsRightOf rights.value right }
        ensures { IfOk result (KeepsRight right) }
    {
        let no = right.no() as u8;
        let key = RightKey { rights, no };
        match KeyedLock::new(alloc, right, &key) {
            Ok(deed) => Ok(KeptRight { no, deed }),
            Err(_right) => Err(Memory),
        }
    }

    /// Returns the number of the right's zone, 0 to 7.
    pub fn no(&self) -> u8
        ensures no { result ≡ right_no self.now }
        ensures below { result < 8 }
    {
        self.no
    }

    /// Returns the right itself. The lock is free, because the caller is its only owner.
    pub fn use_up<R: Wait>(self, rt: &R) -> Deed
        ensures table { deed_table result ≡ right_table self }
        ensures no { no_of result ≡ right_no self }
    {
        let KeptRight { no: _, deed } = self;
        deed.into_inner(rt)
    }
}
