ghost use Rattle.std.specs.Prelude.{◌≡◌, [], ◌∷◌};

use listed::Log;
use std::test::Fail;
use std::thread::{Threads, join};

// Another thread adds to the log, and what comes back has each item, in order.
fn pushed_in_two_threads<R: Threads + Sync>(rt: &R) -> Log<u32>
    ensures { result ≡ 1 ∷ 2 ∷ 3 ∷ [] }
{
    let mut log = Log::new();
    log.push(1);
    let (mut log, ()) = join(
        rt,
        move || -> Log<u32>
            requires { log ≡ 1 ∷ [] }
            ensures { result ≡ 1 ∷ 2 ∷ [] }
        {
            let mut log = log;
            log.push(2);
            log
        },
        || (),
    );
    log.push(3);
    log
}

#[test]
fn takes_the_room_of_one_item(rt: HostRuntime) -> Result<(), Fail> {
    let log = pushed_in_two_threads(&rt);
    assert!(rt; size_of_val(&log) <= 2 * size_of::<u32>());
    Ok(())
}
