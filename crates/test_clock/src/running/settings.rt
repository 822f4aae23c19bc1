use super::*;
use smr_deferred::ReapNo;
use std::sync::atomic::{AtomicU64, Ordering};

/// How long a request may be, and how long it may take.
#[derive(Drop)]
struct Limits {
    bytes: AtomicU64,
    seconds: AtomicU64,
}

impl Limits {
    fn new() -> Limits {
        Limits {
            bytes: AtomicU64::new(0),
            seconds: AtomicU64::new(0),
        }
    }

    fn read(&self) -> (u64, u64) {
        let bytes = self.bytes.load(Ordering::SeqCst);
        (bytes, self.seconds.load(Ordering::SeqCst))
    }

    fn write(&self, bytes: u64, seconds: u64) {
        self.bytes.store(bytes, Ordering::SeqCst);
        self.seconds.store(seconds, Ordering::SeqCst);
    }
}

/// Who has it may write the limits at this place, unless they are in force. There is one for each place.
#[derive(Debug, PartialEq, Eq, Drop)]
struct Place {
    number: u64,
}

/// What readers share: the limits of four places, and the number of the place that is in force.
#[derive(Drop)]
struct Settings {
    places: [Limits; 4],
    in_force: AtomicU64,
}

impl Settings {
    fn new() -> Settings {
        Settings {
            places: [Limits::new(), Limits::new(), Limits::new(), Limits::new()],
            in_force: AtomicU64::new(0),
        }
    }

    fn at(&self, number: u64) -> &Limits {
        &self.places[(number % 4) as usize]
    }

    /// The limits in force. Who calls it is in a section, and until that ends nobody writes where it looks.
    fn limits(&self) -> &Limits {
        self.at(self.in_force.load(Ordering::SeqCst))
    }

    /// Writes limits at a place that no reader can see, and puts them in force.
    fn put(&self, place: &Place, bytes: u64, seconds: u64) {
        self.at(place.number).write(bytes, seconds);
        self.in_force.store(place.number, Ordering::SeqCst);
    }
}

#[test]
fn a_reader_sees_one_configuration_until_it_exits(rt: HostRuntime) -> Result<(), Fail> {
    let (clock, mut reader, mut pass) = two_seats(rt.alloc(), 1, 8)?;
    let settings = Settings::new();
    let mut old = new_list(rt.alloc(), &clock, 1)?;
    let first = Place { number: 0 };
    settings.put(&first, 4096, 30);
    clock.enter(&mut reader)?;
    let seen = settings.limits();
    settings.put(&Place { number: 1 }, 65_536, 5);
    old.retire(rt.alloc(), &clock, &mut pass, first)?;
    let held = ReapNo::Held { goal: 3 };
    assert_eq!(rt; old.reap(&clock, &mut pass), Err(held));
    assert_eq!(rt; seen.read(), (4096, 30));
    assert_eq!(rt; settings.limits().read(), (65_536, 5));
    clock.exit(&mut reader);
    let free = Place { number: 0 };
    assert_eq!(rt; old.reap(&clock, &mut pass), Ok(Some(free)));
    Ok(())
}
