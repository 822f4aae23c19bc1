use name_cache::{EntryHooks, RaisedEntry};
use name_rows::{Opened, make};
use std::alloc::Global;
use std::sync::Wait;
use std::test::Fail;
use uma_life::{BringRefused, Memory, Stored};

// The hooks of the one entry of a clock.
fn two_hooks(alloc: Global) -> Result<(EntryHooks, EntryHooks), Memory> {
    let Ok(opened) = make(alloc, 1, 1, 8, 1, 1, 0) else {
        return Err(Memory);
    };
    let Opened {
        clock,
        passes: _,
        rows: _,
        root,
    } = opened;
    EntryHooks::pair(alloc, &clock, root)
}

fn bring<R: Wait>(
    rt: &R,
    alloc: Global,
    hooks: &EntryHooks,
    no: u32,
) -> Result<Stored<RaisedEntry>, BringRefused> {
    Stored::bring(rt, alloc, hooks, no)
}

#[test]
fn an_entry_that_is_out_is_refused_until_it_is_back(rt: HostRuntime) -> Result<(), Fail> {
    let alloc = rt.alloc();
    let (hooks, other) = two_hooks(alloc)?;
    let refused = Some(BringRefused::Init { code: 255 });
    let out = bring(&rt, alloc, &hooks, 0)?;
    assert_eq!(rt; bring(&rt, alloc, &other, 0).err(), refused);
    assert_eq!(rt; bring(&rt, alloc, &hooks, 1).err(), refused);
    assert_eq!(rt; out.end(&rt, &hooks).keg_finis, 1);
    let again = bring(&rt, alloc, &other, 0)?;
    assert_eq!(rt; bring(&rt, alloc, &hooks, 0).err(), refused);
    again.end(&rt, &hooks);
    Ok(())
}
