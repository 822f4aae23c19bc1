ghost use Rattle.std.specs.Prelude.{◌≡◌};
ghost use Rattle.uma_bucket.specs.Bucket.{items_of, size_of};

use super::plain_book::PlainBook;
use crate::body::Plain;
use std::test::Fail;
use uma_bucket::{Bucket, BucketRefused};

#[test]
fn a_bucket_has_4_to_64_places(rt: HostRuntime) -> Result<(), Fail> {
    for size in [0, 1, 3, 65, u32::MAX] {
        let refused = Bucket::<Plain>::make(rt.alloc(), size).err();
        assert_eq!(rt; refused, Some(BucketRefused::Size { size }));
    }
    let text = format!(in rt.alloc(); "{}", BucketRefused::Size { size: 65 })?;
    assert_eq!(rt; text.as_str(), "a bucket of 65 items: it has 4 to 64");
    for size in [4, 5, 63, 64] {
        let bucket = Bucket::<Plain>::make(rt.alloc(), size)?;
        assert_eq!(rt; (bucket.size(), bucket.len()), (size, 0));
    }
    Ok(())
}

/// Puts an item back on top, where there is one.
fn pops_and_pushes(bucket: &mut Bucket<Plain>)
    ensures items { items_of bucket.new ≡ items_of bucket.old }
    ensures size { size_of bucket.new ≡ size_of bucket.old }
{
    if let Some(item) = bucket.pop() {
        bucket.push(item);
    }
}

#[test]
fn the_last_put_is_the_first_taken(rt: HostRuntime) -> Result<(), Fail> {
    let mut book = PlainBook::new(rt.alloc(), 8)?;
    let mut bucket = Bucket::make(rt.alloc(), 4)?;
    for no in 0..4 {
        let item = book.cached(&rt, rt.alloc(), no)?;
        if bucket.len() < bucket.size() {
            bucket.push(item);
        }
    }
    pops_and_pushes(&mut bucket);
    assert_eq!(rt; (bucket.len(), bucket.size()), (4, 4));
    for no in [3, 2, 1, 0] {
        assert_eq!(rt; bucket.pop().map(|item| item.no()), Some(no));
    }
    assert!(rt; bucket.pop().is_none());
    bucket.end();
    Ok(())
}
