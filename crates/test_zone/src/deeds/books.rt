ghost use Rattle.std.specs.Prelude.{◌≡◌, None, replicate};
ghost use Rattle.deed_book.specs.Book.{book_table, zones_of};
ghost use Rattle.deed_book.specs.Deed.{deed_table, no_of};

use deed_book::{Book, BookRefused, Deed, Memory};
use std::snapshot::Snapshot;
use std::test::Fail;
use std::thread::{Threads, join};

#[test]
fn a_book_has_1_to_262144_numbers(rt: HostRuntime) -> Result<(), Fail> {
    for (numbers, fits) in [(0, false), (1, true), (262_144, true), (262_145, false)] {
        let refused = Book::new(rt.alloc(), numbers).err();
        let expected = if fits {
            None
        } else {
            Some(BookRefused::Numbers { numbers })
        };
        assert!(rt; refused == expected, "at {numbers}");
    }
    Ok(())
}

#[test]
fn a_refusal_says_how_many_numbers_were_asked_for(rt: HostRuntime) -> Result<(), Fail> {
    let text = format!(in rt.alloc(); "{}", BookRefused::Numbers { numbers: 0 })?;
    assert_eq!(rt; text.as_str(), "a book of 0 numbers: it has 1 to 262144");
    Ok(())
}

#[test]
fn want_of_memory_is_told(rt: HostRuntime) -> Result<(), Fail> {
    let text = format!(in rt.alloc(); "{}", Memory)?;
    assert_eq!(rt; text.as_str(), "out of memory");
    Ok(())
}

#[test]
fn a_number_is_outside_until_its_deed_is_accepted(rt: HostRuntime) -> Result<(), Fail> {
    let mut book = Book::new(rt.alloc(), 8)?;
    let deed = book.issue(5, 2);
    assert!(rt; deed.no() == 5 && deed.zone() == 2);
    assert!(rt; !book.is_home(5) && !book.is_home(8) && book.is_home(4));
    assert!(rt; book.accept(deed) == (5, 2));
    assert!(rt; book.is_home(5));
    drop(book.issue(6, 0));
    assert!(rt; !book.is_home(6));
    Ok(())
}

// Takes two deeds of a book, and hands them back in the other order.
fn handed_back(issuer: &Snapshot<Book>, deeds: (Deed, Deed)) -> (Deed, Deed)
    requires { (deed_table deeds.0 ≡ book_table issuer.now.value) × (deed_table deeds.1 ≡ book_table issuer.now.value) }
    ensures tables { (deed_table result.0 ≡ book_table issuer.now.value) × (deed_table result.1 ≡ book_table issuer.now.value) }
    ensures numbers { (no_of result.0 ≡ no_of deeds.1) × (no_of result.1 ≡ no_of deeds.0) }
{
    (deeds.1, deeds.0)
}

// Each of two threads is lent two deeds of one book.
fn lent_to_two_threads<R: Threads + Sync>(rt: &R, book: &mut Book)
    requires { zones_of book.old ≡ replicate 8 None }
    ensures { zones_of book.new ≡ replicate 8 None }
{
    let first = (book.issue(0, 0), book.issue(7, 1));
    let second = (book.issue(3, 0), book.issue(4, 7));
    let issuer = &Snapshot::of(&*book);
    let (first, second) = join(
        rt,
        move || -> (Deed, Deed)
            requires { (deed_table first.0 ≡ book_table issuer.now.value) × (deed_table first.1 ≡ book_table issuer.now.value) }
            ensures tables { (deed_table result.0 ≡ book_table issuer.entry.now.value) × (deed_table result.1 ≡ book_table issuer.entry.now.value) }
            ensures numbers { (no_of result.0 ≡ no_of first.1) × (no_of result.1 ≡ no_of first.0) }
        { handed_back(issuer, first) },
        move || -> (Deed, Deed)
            requires { (deed_table second.0 ≡ book_table issuer.now.value) × (deed_table second.1 ≡ book_table issuer.now.value) }
            ensures tables { (deed_table result.0 ≡ book_table issuer.entry.now.value) × (deed_table result.1 ≡ book_table issuer.entry.now.value) }
            ensures numbers { (no_of result.0 ≡ no_of second.1) × (no_of result.1 ≡ no_of second.0) }
        { handed_back(issuer, second) },
    );
    book.accept(first.0);
    book.accept(second.0);
    book.accept(first.1);
    book.accept(second.1);
}

#[test]
fn deeds_cross_threads(rt: HostRuntime) -> Result<(), Fail> {
    let mut book = Book::new(rt.alloc(), 8)?;
    lent_to_two_threads(&rt, &mut book);
    for number in 0..8 {
        assert!(rt; book.is_home(number), "{number} is outside");
    }
    Ok(())
}
