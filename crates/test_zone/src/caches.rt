use std::alloc::Global;
use std::sync::Wait;
use std::test::Fail;
use uma_zcache::{Import, ImportRefused, ZAllocRefused, ZCache};

/// The base 7, and no other.
#[derive(Drop)]
struct Seven {
    is_out: bool,
}

impl Import for Seven {
    ghost use Rattle.test_zone.specs.Seven.{sevens, LacksSeven};

    ghost outside = { λ seven. sevens seven.is_out };

    ghost lacks = { λ seven. LacksSeven seven.is_out };

    fn take_one(&mut self, _alloc: Global) -> Result<u64, ImportRefused> {
        if self.is_out {
            return Err(ImportRefused::NoFit {
                size: 1,
                greatest: 0,
            });
        }
        self.is_out = true;
        Ok(7)
    }

    fn give_one(&mut self, _base: u64) {
        self.is_out = false;
    }
}

fn cache_of(alloc: Global, numbers: u32) -> Result<ZCache<Seven>, Fail> {
    let cache = ZCache::new(alloc, Seven { is_out: false }, numbers)?;
    Ok(cache)
}

/// The refusal of a cache whose one base lies on another seat's stack, before that is drained.
fn refusal_of<R: Wait>(
    rt: &R,
    alloc: Global,
    cache: &ZCache<Seven>,
) -> Result<Option<ZAllocRefused>, Fail> {
    let mut first = cache.seat(rt, alloc, 4)?;
    let mut second = cache.seat(rt, alloc, 4)?;
    let held = cache.alloc(rt, alloc, &mut first)?;
    cache.free(rt, &mut first, held);
    let refused = cache.alloc(rt, alloc, &mut second).err();
    cache.drain(rt, &mut first);
    Ok(refused)
}

#[test]
fn without_a_number_that_is_the_refusal(rt: HostRuntime) -> Result<(), Fail> {
    let cache = cache_of(rt.alloc(), 1)?;
    let refused = refusal_of(&rt, rt.alloc(), &cache)?;
    assert!(rt; refused == Some(ZAllocRefused::Out { out: 1, numbers: 1 }));
    assert!(rt; cache.out(&rt) == 0);
    Ok(())
}

#[test]
fn without_a_base_it_is_the_importers(rt: HostRuntime) -> Result<(), Fail> {
    let cache = cache_of(rt.alloc(), 2)?;
    let refused = refusal_of(&rt, rt.alloc(), &cache)?;
    assert!(rt;
        refused
            == Some(ZAllocRefused::NoFit {
                size: 1,
                greatest: 0
            })
    );
    assert!(rt; cache.out(&rt) == 0);
    Ok(())
}
