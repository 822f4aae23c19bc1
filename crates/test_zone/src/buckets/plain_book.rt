ghost use Rattle.std.specs.Prelude.{◌≡◌, []};
ghost use Rattle.deed_book.specs.Book.{book_table};

use crate::body::{Plain, idle_hooks};
use deed_book::Book;
use std::alloc::Global;
use std::sync::Wait;
use std::test::Fail;
use uma_life::{Cached, Stored};

/// A book of items without data, which are of no origin.
#[derive(Drop)]
pub(super) struct PlainBook {
    book: Book,
    ghost none: { (book_table book).origin ≡ [] },
}

impl PlainBook {
    pub fn new(alloc: Global, numbers: u32) -> Result<PlainBook, Fail> {
        let book = Book::new(alloc, numbers)?;
        Ok(PlainBook { book })
    }

    /// A cached item of zone 0.
    pub fn cached<R: Wait>(
        &mut self,
        rt: &R,
        alloc: Global,
        no: u32,
    ) -> Result<Cached<Plain>, Fail> {
        let stored = Stored::bring(rt, alloc, &idle_hooks(), no)?;
        if !self.book.is_home(no) {
            return Err(Fail::new("out"));
        }
        let Ok(item) = stored.lend(&idle_hooks(), self.book.issue(no, 0), 0) else {
            return Err(Fail::new("refused"));
        };
        Ok(item)
    }
}
