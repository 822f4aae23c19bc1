ghost use Rattle.std.specs.Prelude.{◌≡◌, ◌≤◌, max};
ghost use Rattle.keyed_lock.specs.Rising.{OnlyRises, Raises, Sees};

use atomic_table::{Play, Seat, Split, Table, TableRule};
use std::alloc::{AllocError, Global};

const WORD: usize = 0;

/// The word only rises: no seat knows of a height above it.
pub(crate) struct Rising;

impl TableRule<(), u64, ()> for Rising {
    ghost holds = { λ _ state. OnlyRises state };

    ghost first = { λ _. 0 };
}

/// A step that raises the word.
pub(crate) struct Raise;

impl Play<(), u64> for Raise {
    ghost then = { λ step before found after. Raises step before found after };
}

/// A step that only looks.
pub(crate) struct Look;

impl Play<(), u64> for Look {
    ghost then = { λ step before found after. Sees found after };
}

/// Two seats that know what one knew.
pub(crate) struct Twice;

impl Split<u64> for Twice {
    ghost left = { λ known. known };

    ghost right = { λ known. known };
}

/// A height that only rises, which many threads raise.
#[derive(Drop)]
pub struct HighWater {
    table: Table<(), u64, (), Rising, Global>,
    ghost one_word: { table.shared.table_id.words ≡ 1 },
}

/// A seat of a `HighWater`. It knows a height that its water has reached, which nothing but a step of that water says.
pub type Gauge = Seat<(), u64>;

impl HighWater {
    ghost use Rattle.keyed_lock.specs.HighWater.{water_id, height_known};

    /// A water at height 0.
    pub fn new(alloc: Global) -> Result<HighWater, AllocError> {
        let (table, _gauge) = Table::of_words(alloc, &[0], &())?;
        Ok(HighWater { table })
    }

    /// A new gauge. What it knows is some height that the water had during the call.
    pub fn gauge(&self) -> Gauge
        ensures { result.table_id ≡ water_id self.now }
    {
        self.table.shared.load_new_seat::<Look>(WORD).1
    }

    /// Another gauge that knows the same height.
    pub fn copy(&self, gauge: &mut Gauge) -> Gauge
        requires { gauge.old.table_id ≡ water_id self.now }
        ensures kept { (gauge.new.table_id ≡ gauge.old.table_id) × (height_known gauge.new ≡ height_known gauge.old) }
        ensures copied { (result.table_id ≡ gauge.old.table_id) × (height_known result ≡ height_known gauge.old) }
    {
        self.table.shared.split_seat::<Twice>(gauge)
    }

    /// Raises the water to `height` if it is lower, and answers how high it was.
    pub fn raise(&self, gauge: &mut Gauge, height: u64) -> u64
        requires { gauge.old.table_id ≡ water_id self.now }
        ensures same { gauge.new.table_id ≡ gauge.old.table_id }
        ensures before { height_known gauge.old ≤ result }
        ensures raised { height_known gauge.new ≡ max result height }
    {
        self.table.shared.fetch_max::<Raise>(gauge, WORD, height)
    }

    /// How high the water is.
    pub fn height(&self, gauge: &mut Gauge) -> u64
        requires { gauge.old.table_id ≡ water_id self.now }
        ensures same { gauge.new.table_id ≡ gauge.old.table_id }
        ensures before { height_known gauge.old ≤ result }
        ensures known { height_known gauge.new ≡ result }
    {
        self.raise(gauge, 0)
    }
}
