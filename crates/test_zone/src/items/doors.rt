ghost use Rattle.std.specs.Prelude.{◌≡◌, ◌==◌, cond, true, false, Some, None};

use std::alloc::Global;
use std::sync::Wait;
use std::sync::atomic::{AtomicU64, Ordering};
use uma_item::ItemHooks;
use uma_life::Memory;

/// What a user keeps in an item: whether it is open, and for whom.
#[derive(Drop)]
pub struct Door {
    pub is_open: bool,
    pub guest: u64,
}

/// Hooks that count what they open and close. A ctor with the argument 9 is refused with 9.
#[derive(Drop)]
pub struct Doors {
    pub opened: AtomicU64,
    pub closed: AtomicU64,
}

impl Doors {
    pub fn new() -> Doors {
        Doors {
            opened: AtomicU64::new(0),
            closed: AtomicU64::new(0),
        }
    }
}

impl ItemHooks<Door> for Doors {
    ghost refuses_ctor = { λ doors door zone guest. cond (guest == 9) (Some 9) None };

    ghost leaves_ctor = { λ doors door zone guest left. left ≡ record { is_open = true; guest = guest } };

    ghost leaves_dtor = { λ doors door zone left. left.is_open ≡ false };

    fn make<R: Wait>(&self, _rt: &R, _alloc: Global, _no: u32) -> Result<Door, Memory> {
        Ok(Door {
            is_open: false,
            guest: 0,
        })
    }

    fn init(&self, _zone: u8, _door: &mut Door) -> Result<(), u8> {
        Ok(())
    }

    fn ctor(&self, _zone: u8, door: &mut Door, guest: u64) -> Result<(), u8> {
        if guest == 9 {
            return Err(9);
        }
        *door = Door {
            is_open: true,
            guest,
        };
        self.opened.fetch_add(1, Ordering::SeqCst);
        Ok(())
    }

    fn dtor(&self, _zone: u8, door: &mut Door) {
        door.is_open = false;
        self.closed.fetch_add(1, Ordering::SeqCst);
    }

    fn fini(&self, _zone: u8, _door: &mut Door) {}

    fn bury<R: Wait>(&self, _rt: &R, _door: Door) {}
}
