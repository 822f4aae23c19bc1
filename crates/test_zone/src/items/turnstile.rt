use std::alloc::Global;
use std::sync::Wait;
use std::sync::atomic::{AtomicU64, Ordering};
use uma_item::ItemHooks;
use uma_life::Memory;

/// Hooks that count what they open and close, in six lines. Memory is refused for the data of number 9.
#[derive(Drop)]
pub struct Turnstile {
    pub opened: AtomicU64,
    pub closed: AtomicU64,
}

impl Turnstile {
    pub fn new() -> Turnstile {
        Turnstile {
            opened: AtomicU64::new(0),
            closed: AtomicU64::new(0),
        }
    }
}

impl ItemHooks<()> for Turnstile {
    fn make<R: Wait>(&self, _rt: &R, _alloc: Global, no: u32) -> Result<(), Memory> {
        if no == 9 { Err(Memory) } else { Ok(()) }
    }

    fn init(&self, _zone: u8, _data: &mut ()) -> Result<(), u8> {
        Ok(())
    }

    fn ctor(&self, _zone: u8, _data: &mut (), _arg: u64) -> Result<(), u8> {
        self.opened.fetch_add(1, Ordering::SeqCst);
        Ok(())
    }

    fn dtor(&self, _zone: u8, _data: &mut ()) {
        self.closed.fetch_add(1, Ordering::SeqCst);
    }

    fn fini(&self, _zone: u8, _data: &mut ()) {}

    fn bury<R: Wait>(&self, _rt: &R, _data: ()) {}
}
