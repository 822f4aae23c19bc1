ghost use Rattle.std.specs.Prelude.{IfOk};
ghost use Rattle.uma_keg.specs.NewKeg.{AreNewRights};

use deed_book::{Book, Deed, Memory};
use std::alloc::Global;

/// How many zones a keg can have (own).
const MOST_ZONES: u32 = 8;

/// The book of a keg's rights to a zone, all of which are outside, and the rights with the numbers 7 down to 0.
pub(crate) fn new_rights(alloc: Global) -> Result<(Book, Vec<Deed>), Memory>
    ensures { IfOk result (λ (book, rights). AreNewRights book rights.items) }
{
    let Ok(mut book) = Book::new(alloc, MOST_ZONES) else {
        return Err(Memory);
    };
    let mut rights = Vec::with_capacity(alloc, MOST_ZONES as usize)?;
    for below in 0..MOST_ZONES {
        rights.push_reserved(book.issue(MOST_ZONES - 1 - below, 0));
    }
    Ok((book, rights))
}
