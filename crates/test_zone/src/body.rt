use std::alloc::Global;
use std::sync::Wait;
use uma_item::{Item, ItemHooks, TrailHooks};
use uma_life::Memory;

/// An item without data.
pub(crate) type Plain = Item<()>;

/// Hooks that do nothing.
#[derive(Drop)]
pub(crate) struct Idle;

impl ItemHooks<()> for Idle {
    fn make<R: Wait>(&self, _rt: &R, _alloc: Global, _no: u32) -> Result<(), Memory> {
        Ok(())
    }

    fn init(&self, _zone: u8, _data: &mut ()) -> Result<(), u8> {
        Ok(())
    }

    fn ctor(&self, _zone: u8, _data: &mut (), _arg: u64) -> Result<(), u8> {
        Ok(())
    }

    fn dtor(&self, _zone: u8, _data: &mut ()) {}

    fn fini(&self, _zone: u8, _data: &mut ()) {}

    fn bury<R: Wait>(&self, _rt: &R, _data: ()) {}
}

/// The hooks of items without data.
pub(crate) fn idle_hooks() -> TrailHooks<Idle> {
    TrailHooks::new(Idle)
}
