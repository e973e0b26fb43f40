//! What all hands have done, once they are home.
ghost use Rattle.std.specs.Prelude.{◌≡◌, false, [], map, flat_map, All, IfOk};
ghost use Rattle.theory.specs.Plans.{Plan};
ghost use Rattle.theory.specs.Beginnings.{begun_by};
ghost use Rattle.pool.specs.Pools.{AreAllOf};
ghost use Rattle.cubes.specs.Shares.{HaveWorked, AreHarvested};

use crate::hands::Worked;
use crate::solved::Solved;
use cdcl::KeepsLines;
use cnf::Formula;
use pool::{Hand, Pool};
use std::alloc::{AllocError, Global};

/// The hands, and their results one list after the other.
fn parted<L: Drop>(
    alloc: Global,
    works: Vec<Worked<L>>,
) -> Result<(Vec<Hand>, Vec<Solved<L>>), AllocError>
    ensures hands { IfOk result (λ r. r.0.items ≡ map (λ w. w.hand) works.items) }
    ensures results { IfOk result (λ r. r.1.items ≡ flat_map (λ w. w.solved.items) works.items) }
{
    let mut hands = Vec::new(alloc);
    let mut results = Vec::new(alloc);
    for worked in works {
        let Worked {
            hand,
            mut solved,
            short_of_memory: _,
        } = worked;
        hands.push(hand)?;
        results.append(&mut solved)?;
    }
    Ok((hands, results))
}

/// The results of these hands of the pool, one list after the other, once it is closed: what holds
/// of them by whatever plan the hands worked. They come in any order.
pub(crate) fn close_all<L: KeepsLines>(
    alloc: Global,
    formula: &Formula,
    pool: Pool,
    works: Vec<Worked<L>>,
) -> Result<Vec<Solved<L>>, AllocError>
    requires pool { AreAllOf pool (map (λ w. w.hand) works.items) }
    requires root { pool.root ≡ [] }
    requires long { All (λ w. w.short_of_memory ≡ false) works.items }
    ensures results { IfOk result (λ r. r.items ≡ flat_map (λ w. w.solved.items) works.items) }
    ensures harvested { IfOk result (λ r. (plan : Plan) → HaveWorked L.lines (begun_by plan.search formula.now) plan works.items → AreHarvested L.lines (begun_by plan.search formula.now) plan works.items r.items) }
{
    let _vars = formula.vars(); // the formula is there for the contract alone
    let (hands, results) = parted(alloc, works)?;
    let _closing = pool.close(hands)?;
    Ok(results)
}
