ghost use Rattle.std.specs.Prelude.{◌≡◌, ℕ, List, [], ◌⊎◌, Option};
ghost use Rattle.uma_life.specs.Life.{Life};
ghost use Rattle.uma_life.specs.Hook.{KegInit, ZoneInit, Ctor, Dtor, ZoneFini, KegFini, MayPass};
ghost use Rattle.uma_life.specs.Passes.{MakesRaw, Passes, PassesOrNot};
ghost use Rattle.uma_life.specs.declared.tally.BodyPhase.TheVariants.{Raw, Gone};
ghost use Rattle.uma_life.specs.Word.{HooksRunInOrder};

use crate::states::Live;
use crate::tally::{BodyPhase, Tally};
use deed_book::Memory;
use listed::Listed;
use std::alloc::Global;
use std::error::Error;
use std::fmt;
use std::sync::Wait;

/// Why an item wasn't brought in.
#[derive(Clone, Copy, Debug, PartialEq, Eq)]
pub enum BringRefused {
    /// `keg_init` refused the body with this code.
    Init { code: u8 },
    Memory,
}

impl fmt::Display for BringRefused {
    fn fmt<W: fmt::Write>(&self, f: &mut fmt::Formatter<W>) -> fmt::Result {
        match self {
            BringRefused::Init { code } => write!(f, "keg_init refused the item with code {code}"),
            BringRefused::Memory => write!(f, "out of memory"),
        }
    }
}

impl Error for BringRefused {}

impl From<Memory> for BringRefused {
    ghost use Rattle.std.specs.Prelude.{◌≡◌};
    ghost use Rattle.uma_life.specs.declared.hooks.BringRefused.TheVariants.{Memory};

    ghost from_gives = { λ _ refused. refused ≡ Memory };

    fn from(_refused: Memory) -> BringRefused {
        BringRefused::Memory
    }
}

/// What an item is made of. A body keeps its number and says where in its life it stands; hooks alone change phase and
/// tally.
pub trait Body {
    ghost life: { Self → Life };

    /// What the body is of, as numbers. Hooks keep it; where it isn't written it tells nothing.
    ghost origin: { Self → List ℕ } = { λ body. [] };

    /// The number of the item.
    fn no(&self) -> u32
        ensures { result ≡ (life self.now).no };

    fn phase(&self) -> BodyPhase
        ensures { result ≡ (life self.now).phase };

    fn tally(&self) -> Tally
        ensures { result ≡ (life self.now).tally };
}

/// The hooks of a zone, and what makes and unmakes bodies.
///
/// 1. Each hook goes from one phase to one phase, raises its one count by one, from 2^64 - 1 to 0, and changes no other
///    count and not the number.
/// 2. `keg_init`, `zone_init` and `ctor` may refuse, by the implementation's own meaning of refusal, with a code from 1
///    to 255. Then they change nothing.
/// 3. What a hook leaves of a body, beyond its life, is by the implementation's own meaning: a relation of these hooks,
///    the body before, the zone and the body after. It may say as much or as little as the implementation can.
/// 4. `raw` makes bodies of the hooks' own origin, and no hook changes what a body is of.
/// 5. `raw` and `bury` alone may wait.
pub trait Hooks<T: Body>: Drop {
    /// The code with which `keg_init`, in zone 0, or `zone_init` refuses a body.
    ghost refuses_init: { Self → T → ℕ → Option ℕ };

    /// The code with which `ctor` refuses a body in a zone with an argument.
    ghost refuses_ctor: { Self → T → ℕ → ℕ → Option ℕ };

    /// Which bodies `raw` makes of a number.
    ghost makes: { Self → ℕ → T → Type 0 };

    /// What the bodies are of that `raw` makes, as numbers. Where it isn't written they are of nothing.
    ghost origin: { Self → List ℕ } = { λ hooks. [] };

    /// What `keg_init`, in zone 0, or `zone_init` leaves of a body that it takes.
    ghost leaves_init: { Self → T → ℕ → T → Type 0 };

    /// What `ctor` leaves of a body that it takes in a zone with an argument.
    ghost leaves_ctor: { Self → T → ℕ → ℕ → T → Type 0 };

    /// What `dtor` leaves of a body in a zone.
    ghost leaves_dtor: { Self → T → ℕ → T → Type 0 };

    /// What `keg_fini`, in zone 0, or `zone_fini` leaves of a body.
    ghost leaves_fini: { Self → T → ℕ → T → Type 0 };

    /// Makes the body of a number, which passed no hook.
    fn raw<R: Wait>(&self, rt: &R, alloc: Global, no: u32) -> Result<T, Memory>
        ensures { MakesRaw T.life T.origin no (makes self.now no) (origin self.now) result };

    /// Runs when the item's slab is brought in.
    fn keg_init(&self, body: &mut T) -> Result<(), u8>
        requires { MayPass KegInit (T.life body.old) }
        ensures { PassesOrNot T.life T.origin KegInit (λ was. leaves_init self.now was 0) (refuses_init self.now body.old 0) body.old body.new result };

    /// Runs when the item enters a secondary zone, which is 1 to 7.
    fn zone_init(&self, zone: u8, body: &mut T) -> Result<(), u8>
        requires { MayPass (ZoneInit zone) (T.life body.old) }
        ensures { PassesOrNot T.life T.origin (ZoneInit zone) (λ was. leaves_init self.now was zone) (refuses_init self.now body.old zone) body.old body.new result };

    /// Runs on an allocation in a zone below 8, with the argument of the request.
    fn ctor(&self, zone: u8, body: &mut T, arg: u64) -> Result<(), u8>
        requires { MayPass (Ctor zone) (T.life body.old) }
        ensures { PassesOrNot T.life T.origin (Ctor zone) (λ was. leaves_ctor self.now was zone arg) (refuses_ctor self.now body.old zone arg) body.old body.new result };

    /// Runs once for each allocation that was freed, in its zone.
    fn dtor(&self, zone: u8, body: &mut T)
        requires { MayPass (Dtor zone) (T.life body.old) }
        ensures { Passes T.life T.origin (Dtor zone) (λ was. leaves_dtor self.now was zone) body.old body.new };

    /// Runs when the item leaves a secondary zone, which is 1 to 7.
    fn zone_fini(&self, zone: u8, body: &mut T)
        requires { MayPass (ZoneFini zone) (T.life body.old) }
        ensures { Passes T.life T.origin (ZoneFini zone) (λ was. leaves_fini self.now was zone) body.old body.new };

    /// Runs when the item's slab is given up.
    fn keg_fini(&self, body: &mut T)
        requires { MayPass KegFini (T.life body.old) }
        ensures { Passes T.life T.origin KegFini (λ was. leaves_fini self.now was 0) body.old body.new };

    /// Ends a body, and answers its tally. It passed no hook, or all.
    fn bury<R: Wait>(&self, rt: &R, body: T) -> Tally
        requires { ((T.life body).phase ≡ Raw) ⊎ ((T.life body).phase ≡ Gone) }
        ensures { result ≡ (T.life body).tally };
}

/// A list of live items.
pub type Lives<T> = Listed<Live<T>>;

/// The law of every item's life, in words of hooks: an item can pass the prefixes of `keg_init stay* keg_fini` and no
/// other words, where a stay in zone 0 is `(ctor dtor)*` and one in a zone of 1 to 7 is `zone_init (ctor dtor)*
/// zone_fini`, all of one zone. The phase and the counts of such a word agree with the life trail.
pub fn hooks_run_in_order()
    ensures { HooksRunInOrder }
{}
