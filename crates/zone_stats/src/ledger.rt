//! What a seat counts of one zone.
ghost use Rattle.std.specs.Prelude.{◌≡◌, IsTrue, ◌↔◌, false};
ghost use Rattle.zone_stats.specs.Ledger.{LedgerLaw, is_ctor};

use crate::Refusal;

/// What one seat counted of one zone's requests and frees.
///
/// Its law holds of every ledger:
///
/// 1. `requests = allocs + fails`, `turned <= fails` and `cross <= frees`.
/// 2. `last` is there exactly where `fails > 0`.
/// 3. `last` is `Ctor` only where `turned < fails`, and another refusal only where `turned > 0`.
///
/// A request that ends with want of memory counts nothing.
#[derive(Clone, Copy, Debug, PartialEq, Eq)]
pub struct SeatLedger {
    /// Requests that ended, with an item or with a refusal.
    pub requests: u64,
    /// Requests that got an item.
    pub allocs: u64,
    /// Requests that were refused.
    pub fails: u64,
    /// Those of the fails that weren't refused by the zone's `ctor`.
    pub turned: u64,
    /// Items that were freed.
    pub frees: u64,
    /// Those of the frees whose item belongs to another domain than the seat.
    pub cross: u64,
    /// The refusal of the last fail.
    pub last: Option<Refusal>,
    pub ghost law: { LedgerLaw requests allocs fails turned frees cross last },
}

impl SeatLedger {
    ghost use Rattle.zone_stats.specs.LedgerSteps.{HasRoom, IsNew, CountsAlloc, CountsTurned, CountsCtor, CountsFree};

    /// A ledger of nothing yet.
    pub fn new() -> SeatLedger
        ensures { IsNew result }
    {
        SeatLedger {
            requests: 0,
            allocs: 0,
            fails: 0,
            turned: 0,
            frees: 0,
            cross: 0,
            last: None,
        }
    }

    /// Whether a request and a free more can be counted: `requests` and `frees` are below 2^63.
    pub fn room(&self) -> bool
        ensures { IsTrue result ↔ HasRoom self.now }
    {
        self.requests < 1 << 63 && self.frees < 1 << 63
    }

    /// Counts a request that got an item.
    pub fn count_alloc(&mut self)
        requires { HasRoom self.old }
        ensures { CountsAlloc self.old self.new }
    {
        self.requests += 1;
        self.allocs += 1;
    }

    /// Counts a request that was turned away before it had an item, and keeps the refusal.
    pub fn count_refused(&mut self, refusal: Refusal)
        requires room { HasRoom self.old }
        requires turned { is_ctor refusal ≡ false }
        ensures { CountsTurned self.old self.new refusal }
    {
        self.requests += 1;
        self.fails += 1;
        self.turned += 1;
        self.last = Some(refusal);
    }

    /// Counts a request whose item the zone's `ctor` refused with this code, and keeps the refusal.
    pub fn count_ctor(&mut self, code: u8)
        requires { HasRoom self.old }
        ensures { CountsCtor self.old self.new code }
    {
        self.requests += 1;
        self.fails += 1;
        self.last = Some(Refusal::Ctor { code });
    }

    /// Counts the free of an item, which is of another domain than the seat's where `cross`.
    pub fn count_free(&mut self, cross: bool)
        requires { HasRoom self.old }
        ensures { CountsFree self.old self.new cross }
    {
        self.frees += 1;
        if cross {
            self.cross += 1;
        }
    }
}
