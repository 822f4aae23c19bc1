ghost use Rattle.std.specs.Prelude.{◌≡◌, ◌≤◌, IfOk};
ghost use Rattle.std.specs.Arc.{arc_value};
ghost use Rattle.smr_clock.specs.Making.{setup, first_words, Opens, HostsClock, MakesClock, MakesPasses, MayMakePasses};

use crate::clock::{Clock, Setup};
use crate::host::{Bare, Host, HostSeat, Ruled};
use crate::pass::Pass;
use crate::view::{View, WorkerSplits};
use atomic_table::{Seat, Table};
use smr_core::hands::opening_words;
use smr_core::{ClockConfig, CoreRefused, Phase};
use std::alloc::{AllocError, Global};
use std::sync::Arc;

/// Why no clock was made.
pub type ClockRefused = CoreRefused;

/// The words before any step, with the host's behind them.
fn first_words(alloc: Global, setup: Setup, more: &[u64]) -> Result<Vec<u64>, AllocError>
    requires { setup.config.seats ≤ 64 }
    ensures { IfOk result (λ words. words.items ≡ first_words setup more.now) }
{
    let mut words = opening_words(alloc, setup.config)?;
    words.extend_from_slice(more)?;
    Ok(words)
}

fn shared<T: Drop>(alloc: Global, value: T) -> Result<Arc<T>, AllocError>
    ensures { IfOk result (λ shared. arc_value shared ≡ value) }
{
    Ok(Arc::new(alloc, value)?)
}

impl<H: Host> Clock<H> {
    /// Makes a clock with a host's words after its own. Both sequences are at `start`. Returns the clock, one pass for each
    /// seat, in the order of their numbers, and a further seat for the host's own parts. Each seat has exactly one
    /// worker.
    ///
    /// # Arguments
    ///
    /// - `seats`: the count of seats, 1 to 64.
    /// - `start`: where both sequences begin, an odd number, at most 2^63 - 1.
    /// - `window`: how far the write sequence may be ahead of the read sequence, an even number from 4 to 2^30.
    /// - `more`: the host's words as they begin.
    /// - `plan`: the host's two numbers.
    ///
    /// # Errors
    ///
    /// As [`Clock::new`].
    pub fn hosted(
        alloc: Global,
        seats: u32,
        start: u64,
        window: u64,
        more: Vec<u64>,
        plan: (u32, u32),
    ) -> Result<(Self, Vec<Pass<H>>, HostSeat<H>), ClockRefused>
        requires opens { Opens H.holds (setup seats start window plan) (H.first (setup seats start window plan)) more.items }
        ensures { HostsClock H.copied (setup seats start window plan) (H.first (setup seats start window plan)) more.items result }
    {
        let config = ClockConfig::checked(seats, start, window)?;
        let setup = Setup { config, plan };
        let words = first_words(alloc, setup, more.as_slice())?;
        let (table, mut maker) = Table::of_words(alloc, words.as_slice(), &setup)?;
        let passes = make_passes(alloc, &table, setup, &mut maker)?;
        let table = shared(alloc, table)?;
        Ok((Clock { table, setup }, passes, HostSeat { seat: maker }))
    }
}

/// Splits off the workers of all seats.
fn make_passes<H: Host>(
    alloc: Global,
    table: &Table<(), View<H::Part>, Setup, Ruled<H>, Global>,
    setup: Setup,
    maker: &mut Seat<(), View<H::Part>>,
) -> Result<Vec<Pass<H>>, AllocError>
    requires { MayMakePasses table.now.shared.table_id table.now.shared.key setup (H.first setup) maker.old }
    ensures { MakesPasses table.now.shared.table_id H.copied setup (H.first setup) result maker.new }
{
    let mut passes = Vec::new(alloc);
    for number in 0..setup.config.seats {
        let seat = table.shared.split_seat::<WorkerSplits<H>>(maker);
        passes.push(Pass {
            seat,
            number,
            phase: Phase::Outside,
            loaded: 0,
        })?;
    }
    Ok(passes)
}

impl Clock<Bare> {
    /// Makes a clock without a host. The write sequence and the read sequence (smr(9)'s `wr_seq` and `rd_seq`) are both at
    /// `start`. Returns the clock and one pass for each seat, in the order of their numbers. Each seat has exactly one
    /// worker.
    ///
    /// # Arguments
    ///
    /// - `seats`: the count of seats, 1 to 64.
    /// - `start`: where both sequences begin, an odd number, at most 2^63 - 1.
    /// - `window`: how far the write sequence may be ahead of the read sequence, an even number from 4 to 2^30.
    ///
    /// # Errors
    ///
    /// - `Seats`, `Even`, `High`, `Window`: that number is out of its range; `Even` and `High` are about `start`. They
    ///   are tested in this order.
    /// - `Memory`: out of memory.
    pub fn new(
        alloc: Global,
        seats: u32,
        start: u64,
        window: u64,
    ) -> Result<(Self, Vec<Pass<Bare>>), ClockRefused>
        ensures { MakesClock (λ part. part) (setup seats start window (0, 0)) tt result }
    {
        let more = Vec::new(alloc);
        let (clock, passes, _) = Clock::<Bare>::hosted(alloc, seats, start, window, more, (0, 0))?;
        Ok((clock, passes))
    }
}
