ghost use Rattle.std.specs.Prelude.{◌≡◌, IfOk};
ghost use Rattle.smr_core.specs.declared.holder.Phase.{Phase};
ghost use Rattle.smr_clock.specs.Belongs.{IsPassOf, holder, setup_of};
ghost use Rattle.name_rows.specs.Belongs.{IsNamesClock};
ghost use Rattle.name_rows.specs.Roots.{IsRootOf};
ghost use Rattle.name_rows.specs.Rows.{IsRowOf};

use name_rows::{Names, Opened, Root, Row, make};
use smr_clock::{Clock, Memory, Pass};
use smr_core::Phase;
use std::alloc::Global;
use std::test::Fail;

mod making;
mod way;

// A clock of two seats at 1 and 1, the passes of a writer and of a reader, one row at version 0, and a root of two entries.
fn one_row(alloc: Global) -> Result<(Clock<Names>, Pass<Names>, Pass<Names>, Row, Root), Memory>
    ensures names { IfOk result (λ made. IsNamesClock made.0) }
    ensures plan { IfOk result (λ made. (setup_of made.0).plan ≡ (1, 2)) }
    ensures here { IfOk result (λ made. IsPassOf made.0 made.1 × IsPassOf made.0 made.2) }
    ensures outside { IfOk result (λ made. ((holder made.1).phase ≡ Phase.Outside) × ((holder made.2).phase ≡ Phase.Outside)) }
    ensures row { IfOk result (λ made. IsRowOf made.0 made.3 × (made.3.number ≡ 0) × (made.3.version ≡ 0)) }
    ensures root { IfOk result (λ made. IsRootOf made.0 made.4) }
{
    let Ok(opened) = make(alloc, 2, 1, 8, 1, 2, 0) else {
        return Err(Memory);
    };
    let Opened {
        clock,
        passes,
        rows,
        root,
    } = opened;
    let mut passes = passes.into_vec();
    let second = passes.pop();
    let first = passes.pop();
    let (Some(first), Some(second)) = (first, second) else {
        return Err(Memory);
    };
    let Some(row) = rows.into_vec().pop() else {
        return Err(Memory);
    };
    Ok((clock, first, second, row, root))
}
