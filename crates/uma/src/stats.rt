ghost use Rattle.std.specs.Prelude.{◌≡◌, All, IfOk, IfErr, map};
ghost use Rattle.zone_stats.specs.ReportText.{zones_text};

use crate::local::Local;
use crate::pool::Pool;
use crate::refused::Refused;
use std::alloc::{AllocError, Global};
use std::fmt;
use std::snapshot::Snapshot;
use std::sync::Wait;
use uma_life::{Body, Hooks, Lives};
use zone_stats::{
    HookLines, KegLines, Ledgers, Lines, Report, SeatLedger, ZoneLine, ZoneName, sum, table_text,
};

/// What a local counted, and of which pool it is, which contracts alone see.
#[derive(Drop)]
pub struct PoolLedger<T: Body, K: Hooks<T>> {
    pub counts: SeatLedger,
    pub(crate) pool: Snapshot<Pool<T, K>>,
}

impl<T: Body + Drop, K: Hooks<T>> Pool<T, K> {
    ghost use Rattle.uma.specs.Table.{IsLedgerOf, IsLineOf, RefusesLine, counts_of};

    /// Returns what several locals of the pool counted together, as a line of a table. The free items are counted by a
    /// census of the slabs at this moment. It blocks on the pool's lock.
    ///
    /// # Arguments
    ///
    /// - `name`: the name in the line, 1 to 16 ASCII letters, digits, `_` and `-`.
    /// - `ledgers`: the ledgers of the locals, each of this pool.
    ///
    /// # Errors
    ///
    /// - `Name`: the name isn't such a name.
    /// - `Memory`: out of memory.
    pub fn stats<R: Wait>(
        &self,
        rt: &R,
        alloc: Global,
        name: &[u8],
        ledgers: &[PoolLedger<T, K>],
    ) -> Result<ZoneLine, Refused>
        requires { All (IsLedgerOf self.now) ledgers.now }
        ensures line { IfOk result (IsLineOf self.now name.now (counts_of ledgers.now)) }
        ensures refused { IfErr result (RefusesLine name.now) }
    {
        let Some(name) = ZoneName::new(name) else {
            return Err(Refused::Name);
        };
        let lives = Lives::from_vec(Vec::new(alloc));
        let Ok((census, _lives)) = self.zone.census(rt, alloc, lives) else {
            return Err(Refused::Memory);
        };
        let Ok(counts) = counts_in(alloc, ledgers) else {
            return Err(Refused::Memory);
        };
        let (size, limit) = (self.plan.size, self.plan.limit);
        let (out, free) = (census.outs()[0], census.counts().free);
        Ok(sum(name, size, limit, counts.as_slice(), out, free))
    }
}

impl<T: Body + Drop, K: Hooks<T>> Local<'_, T, K> {
    ghost use Rattle.std.specs.Prelude.{[], ◌∷◌};
    ghost use Rattle.uma.specs.Local.{ledger_in, pool_of};
    ghost use Rattle.uma.specs.Table.{IsLineOf, RefusesLine};

    /// Returns what this local counted, as a line of a table. It is the line of the pool if no other local counted
    /// anything; [`Pool::stats`] adds several locals up. It blocks on the pool's lock.
    ///
    /// # Arguments
    ///
    /// - `name`: the name in the line, 1 to 16 ASCII letters, digits, `_` and `-`.
    ///
    /// # Errors
    ///
    /// As [`Pool::stats`].
    pub fn stats<R: Wait>(&self, rt: &R, alloc: Global, name: &[u8]) -> Result<ZoneLine, Refused>
        ensures line { IfOk result (IsLineOf (pool_of self.now) name.now (ledger_in self.now ∷ [])) }
        ensures refused { IfErr result (RefusesLine name.now) }
    {
        self.pool.stats(rt, alloc, name, &[self.ledger()])
    }
}

// What the ledgers count, in order.
fn counts_in<T: Body, K: Hooks<T>>(
    alloc: Global,
    ledgers: &[PoolLedger<T, K>],
) -> Result<Vec<SeatLedger>, AllocError>
    ensures { IfOk result (λ counts. counts.items ≡ map (λ ledger. ledger.counts) ledgers.now) }
{
    let mut counts = Vec::new(alloc);
    for ledger in ledgers {
        counts.push(ledger.counts)?;
    }
    Ok(counts)
}

/// The text of a table in the manner of `vmstat -z`: a line of titles, and a line for each pool.
///
/// Contracts see its bytes. Printed with `{}` it is the text itself, whose last line is ended.
#[derive(Drop)]
pub struct Table {
    pub(crate) text: Vec<u8>,
}

impl Table {
    /// Makes the text of a table, in the format of `vmstat -z`: a line of titles, and then the lines in their order.
    ///
    /// # Errors
    ///
    /// `Memory`: out of memory.
    pub fn new(alloc: Global, lines: Vec<ZoneLine>) -> Result<Table, Refused>
        ensures text { IfOk result (λ table. table.text.items ≡ zones_text lines.items) }
        ensures refused { IfErr result (λ why. why ≡ Refused.Memory) }
    {
        let report = Report {
            lines: Lines::from_vec(lines),
            ledgers: Ledgers::from_vec(Vec::new(alloc)),
            hooks: HookLines::from_vec(Vec::new(alloc)),
            kegs: KegLines::from_vec(Vec::new(alloc)),
            clock: None,
            names: None,
            detail: false,
            gave_up: 0,
        };
        match table_text(alloc, &report) {
            Ok(text) => Ok(Table { text }),
            Err(_) => Err(Refused::Memory),
        }
    }
}

impl fmt::Display for Table {
    fn fmt<W: fmt::Write>(&self, f: &mut fmt::Formatter<W>) -> fmt::Result {
        match std::str::from_utf8(self.text.as_slice()) {
            Ok(text) => f.write_str(text),
            Err(_) => Err(fmt::Error),
        }
    }
}
