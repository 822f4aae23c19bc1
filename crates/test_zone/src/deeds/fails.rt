ghost use Rattle.std.specs.Prelude.{◌≡◌, ◌+◌, [], ◌∷◌, ◌++◌, length};
ghost use Rattle.deed_book.specs.Book.{book_table, zones_of};
ghost use Rattle.deed_book.specs.FailViews.{cause};
ghost use Rattle.deed_book.specs.FailBook.{fail_book_table, causes_of};
ghost use Rattle.deed_book.specs.FailShare.{share_table, causes_in};

use deed_book::{Book, FailBook, FailShare};
use std::test::Fail;
use std::thread::{Threads, join};

// A share goes to another thread between two refusals, and comes back with its table and its number.
fn counted_before_and_after_a_thread<R: Threads + Sync>(rt: &R, book: &mut FailBook) -> FailShare
    ensures book { causes_of book.new ≡ causes_of book.old ++ cause 1 7 7 ∷ cause 3 4 9 ∷ [] }
    ensures share { causes_in result ≡ cause 1 7 7 ∷ cause 3 4 9 ∷ [] }
    ensures numbers { (length (causes_of book.new) ≡ length (causes_of book.old) + 2) × (length (causes_in result) ≡ 2) }
    ensures tables { (fail_book_table book.new ≡ fail_book_table book.old) × (share_table result ≡ fail_book_table book.old) }
{
    let mut share = book.new_share();
    book.add(&mut share, 1, 7, 7);
    let (mut share, ()) = join(
        rt,
        move || -> FailShare
            ensures table { share_table result ≡ share_table share }
            ensures number { length (causes_in result) ≡ length (causes_in share) }
            ensures causes { causes_in result ≡ causes_in share }
        { share },
        || (),
    );
    book.add(&mut share, 3, 4, 9);
    share
}

// Both books come back from another thread as they went.
fn carried<R: Threads + Sync>(rt: &R, numbers: Book, fails: FailBook) -> (Book, FailBook)
    ensures numbers { (book_table result.0 ≡ book_table numbers) × (zones_of result.0 ≡ zones_of numbers) }
    ensures fails { (fail_book_table result.1 ≡ fail_book_table fails) × (causes_of result.1 ≡ causes_of fails) }
{
    let carry = move || -> (Book, FailBook)
        ensures numbers { (book_table result.0 ≡ book_table numbers) × (zones_of result.0 ≡ zones_of numbers) }
        ensures fails { (fail_book_table result.1 ≡ fail_book_table fails) × (causes_of result.1 ≡ causes_of fails) }
    { (numbers, fails) };
    join(rt, carry, || ()).0
}

#[test]
fn books_and_shares_cross_threads(rt: HostRuntime) -> Result<(), Fail> {
    let numbers = Book::new(rt.alloc(), 1)?;
    let fails = FailBook::new(rt.alloc())?;
    let (numbers, mut fails) = carried(&rt, numbers, fails);
    let share = counted_before_and_after_a_thread(&rt, &mut fails);
    assert!(rt; numbers.is_home(0) && size_of_val(&share) == 0);
    Ok(())
}
