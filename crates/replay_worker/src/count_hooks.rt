ghost use Rattle.std.specs.Prelude.{◌≡◌, None};
ghost use Rattle.uma_life.specs.Hook.{base_phase};
ghost use Rattle.replay_worker.specs.Hooks.{refusal_of};

use std::alloc::Global;
use std::sync::Wait;
use uma_life::{Body, BodyPhase, Hooks, Memory, Tally, ZoneTally};

/// The body of a replay's items: its number, where it stands in its life, and how often it passed each hook.
#[derive(Debug, Drop)]
pub struct Counted {
    pub(crate) no: u32,
    pub(crate) phase: BodyPhase,
    pub(crate) tally: Tally,
}

impl Body for Counted {
    ghost life = { λ body. record { no = body.no; phase = body.phase; tally = body.tally } };

    fn no(&self) -> u32 {
        self.no
    }

    fn phase(&self) -> BodyPhase {
        self.phase
    }

    fn tally(&self) -> Tally {
        self.tally
    }
}

/// The greatest argument that `ctor` refuses.
const MOST_REFUSED: u64 = 254;

/// The hooks of a replay. Each counts itself in the body's tally, and none refuses because of a count.
///
/// `ctor` refuses an argument from 1 to 254, with the argument as the code. Nothing else is refused.
#[derive(Drop)]
pub struct CountHooks;

/// The phase of an item that is in a zone and not built.
fn unbuilt(zone: u8) -> BodyPhase
    ensures { result ≡ base_phase zone }
{
    if zone == 0 {
        BodyPhase::Kept
    } else {
        BodyPhase::Zoned { zone }
    }
}

impl Hooks<Counted> for CountHooks {
    ghost refuses_init = { λ hooks body zone. None };

    ghost refuses_ctor = { λ hooks body zone arg. refusal_of arg };

    // A body's life says all of it.
    ghost makes = { λ hooks number body. Unit {0} };

    ghost leaves_init = { λ hooks body zone left. Unit {0} };

    ghost leaves_ctor = { λ hooks body zone arg left. Unit {0} };

    ghost leaves_dtor = { λ hooks body zone left. Unit {0} };

    ghost leaves_fini = { λ hooks body zone left. Unit {0} };

    fn raw<R: Wait>(&self, _rt: &R, _alloc: Global, no: u32) -> Result<Counted, Memory> {
        let counts = ZoneTally {
            inits: 0,
            ctors: 0,
            dtors: 0,
            finis: 0,
        };
        let tally = Tally {
            keg_inits: 0,
            keg_finis: 0,
            zones: [counts; 8],
        };
        Ok(Counted {
            no,
            phase: BodyPhase::Raw,
            tally,
        })
    }

    fn keg_init(&self, body: &mut Counted) -> Result<(), u8> {
        body.phase = BodyPhase::Kept;
        body.tally.keg_inits = body.tally.keg_inits.wrapping_add(1);
        Ok(())
    }

    fn zone_init(&self, zone: u8, body: &mut Counted) -> Result<(), u8> {
        body.phase = BodyPhase::Zoned { zone };
        let counts = &mut body.tally.zones[zone as usize];
        counts.inits = counts.inits.wrapping_add(1);
        Ok(())
    }

    fn ctor(&self, zone: u8, body: &mut Counted, arg: u64) -> Result<(), u8> {
        if arg != 0 && arg <= MOST_REFUSED {
            return Err(arg as u8);
        }
        body.phase = BodyPhase::Built { zone };
        let counts = &mut body.tally.zones[zone as usize];
        counts.ctors = counts.ctors.wrapping_add(1);
        Ok(())
    }

    fn dtor(&self, zone: u8, body: &mut Counted) {
        body.phase = unbuilt(zone);
        let counts = &mut body.tally.zones[zone as usize];
        counts.dtors = counts.dtors.wrapping_add(1);
    }

    fn zone_fini(&self, zone: u8, body: &mut Counted) {
        body.phase = BodyPhase::Kept;
        let counts = &mut body.tally.zones[zone as usize];
        counts.finis = counts.finis.wrapping_add(1);
    }

    fn keg_fini(&self, body: &mut Counted) {
        body.phase = BodyPhase::Gone;
        body.tally.keg_finis = body.tally.keg_finis.wrapping_add(1);
    }

    fn bury<R: Wait>(&self, _rt: &R, body: Counted) -> Tally {
        body.tally
    }
}
