ghost use Rattle.std.specs.Prelude.{◌≡◌, ◌==◌, ◌&&◌, cond, Some, None};
ghost use Rattle.uma_life.specs.Hook.{base_phase};

use std::alloc::Global;
use std::sync::Wait;
use std::sync::atomic::{AtomicU64, Ordering};
use uma_life::{Body, BodyPhase, Hooks, Memory, Tally, ZoneTally};

/// A body with a word of its own.
#[derive(Drop)]
pub struct Counted {
    pub no: u32,
    pub phase: BodyPhase,
    pub tally: Tally,
    pub word: u64,
}

impl Body for Counted {
    ghost life = { λ body. record { no = body.no; phase = body.phase; tally = body.tally } };

    fn no(&self) -> u32 {
        self.no
    }

    fn phase(&self) -> BodyPhase {
        self.phase
    }

    fn tally(&self) -> Tally {
        self.tally
    }
}

/// Hooks that refuse `zone_init` of zone 6 with 6, `ctor` at the argument 7 with 7, and `keg_init`, where they are told
/// to, with 9. They count burials. Those that leave a mark put it into the word, but for `ctor`, which puts its argument.
#[derive(Drop)]
pub struct CountedHooks {
    pub refuses_keg_init: bool,
    pub mark: u64,
    pub buried: AtomicU64,
}

impl CountedHooks {
    /// Hooks that refuse every `keg_init`, or none, with the mark 0.
    pub fn new(refuses_keg_init: bool) -> CountedHooks {
        CountedHooks {
            refuses_keg_init,
            mark: 0,
            buried: AtomicU64::new(0),
        }
    }

    /// Hooks that refuse no `keg_init`, with this mark.
    pub fn marking(mark: u64) -> CountedHooks
        ensures { result.mark ≡ mark }
    {
        CountedHooks {
            refuses_keg_init: false,
            mark,
            buried: AtomicU64::new(0),
        }
    }

    /// How many bodies were buried.
    pub fn buried(&self) -> u64 {
        self.buried.load(Ordering::SeqCst)
    }
}

fn unbuilt(zone: u8) -> BodyPhase
    ensures { result ≡ base_phase zone }
{
    if zone == 0 {
        BodyPhase::Kept
    } else {
        BodyPhase::Zoned { zone }
    }
}

impl Hooks<Counted> for CountedHooks {
    ghost refuses_init = { λ hooks body zone. cond (zone == 6) (Some 6) (cond (hooks.refuses_keg_init && zone == 0) (Some 9) None) };

    ghost refuses_ctor = { λ hooks body zone arg. cond (arg == 7) (Some 7) None };

    ghost makes = { λ hooks number body. body.word ≡ 0 };

    ghost leaves_init = { λ hooks body zone left. left.word ≡ hooks.mark };

    ghost leaves_ctor = { λ hooks body zone arg left. left.word ≡ arg };

    ghost leaves_dtor = { λ hooks body zone left. left.word ≡ hooks.mark };

    ghost leaves_fini = { λ hooks body zone left. left.word ≡ hooks.mark };

    fn raw<R: Wait>(&self, _rt: &R, _alloc: Global, no: u32) -> Result<Counted, Memory> {
        let counts = ZoneTally {
            inits: 0,
            ctors: 0,
            dtors: 0,
            finis: 0,
        };
        let tally = Tally {
            keg_inits: 0,
            keg_finis: 0,
            zones: [counts; 8],
        };
        Ok(Counted {
            no,
            phase: BodyPhase::Raw,
            tally,
            word: 0,
        })
    }

    fn keg_init(&self, body: &mut Counted) -> Result<(), u8> {
        if self.refuses_keg_init {
            return Err(9);
        }
        body.word = self.mark;
        body.phase = BodyPhase::Kept;
        body.tally.keg_inits = body.tally.keg_inits.wrapping_add(1);
        Ok(())
    }

    fn zone_init(&self, zone: u8, body: &mut Counted) -> Result<(), u8> {
        if zone == 6 {
            return Err(6);
        }
        body.word = self.mark;
        body.phase = BodyPhase::Zoned { zone };
        let counts = &mut body.tally.zones[zone as usize];
        counts.inits = counts.inits.wrapping_add(1);
        Ok(())
    }

    fn ctor(&self, zone: u8, body: &mut Counted, arg: u64) -> Result<(), u8> {
        if arg == 7 {
            return Err(7);
        }
        body.word = arg;
        body.phase = BodyPhase::Built { zone };
        let counts = &mut body.tally.zones[zone as usize];
        counts.ctors = counts.ctors.wrapping_add(1);
        Ok(())
    }

    fn dtor(&self, zone: u8, body: &mut Counted) {
        body.word = self.mark;
        body.phase = unbuilt(zone);
        let counts = &mut body.tally.zones[zone as usize];
        counts.dtors = counts.dtors.wrapping_add(1);
    }

    fn zone_fini(&self, zone: u8, body: &mut Counted) {
        body.word = self.mark;
        body.phase = BodyPhase::Kept;
        let counts = &mut body.tally.zones[zone as usize];
        counts.finis = counts.finis.wrapping_add(1);
    }

    fn keg_fini(&self, body: &mut Counted) {
        body.word = self.mark;
        body.phase = BodyPhase::Gone;
        body.tally.keg_finis = body.tally.keg_finis.wrapping_add(1);
    }

    fn bury<R: Wait>(&self, _rt: &R, body: Counted) -> Tally {
        self.buried.fetch_add(1, Ordering::SeqCst);
        body.tally
    }
}
