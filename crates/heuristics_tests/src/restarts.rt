//! Worked restarts, with a window of three glues.
ghost use Rattle.std.specs.Prelude.{◌≡◌, ◌≤◌, length};

use crate::numbers::small;
use heuristics::Mode::{Restarting, Stable};
use heuristics::{GlueAverages, Mode};
use std::test::Fail;

/// The glue of a conflict's line, the mode, and whether the search restarts there.
type Row = (u8, Mode, bool);

/// One cube's conflicts. At the fifth one the sum of the recent glues, 14 times 5, isn't above 18
/// times 4; at the sixth one it is; at the seventh one too, but that is too near.
static RISING: [Row; 10] = [
    (2, Restarting, false),
    (2, Restarting, false),
    (2, Restarting, false),
    (6, Restarting, false),
    (6, Restarting, false),
    (9, Restarting, true),
    (9, Restarting, false),
    (1, Restarting, true),
    (1, Restarting, false),
    (1, Restarting, false),
];

/// Another cube's conflicts, those in stable mode among them, whose glues don't count. At the eighth
/// and the tenth one both sides are equal, 36 and 56.
static IN_TURN: [Row; 12] = [
    (1, Restarting, false),
    (1, Restarting, false),
    (9, Stable, false),
    (1, Restarting, false),
    (2, Restarting, false),
    (9, Stable, false),
    (2, Restarting, false),
    (2, Restarting, false),
    (2, Restarting, false),
    (3, Restarting, false),
    (9, Stable, false),
    (9, Restarting, true),
];

/// The first row at which a cube's glues, the first of which come now, restart otherwise than it
/// says.
fn first_failed(glues: &mut GlueAverages, rows: &[Row]) -> Option<usize>
    requires { length rows.now ≤ 100 }
{
    glues.begin_again();
    let mut restarted = 0;
    for place in 0..rows.len() {
        let (glue, mode, restarts) = rows[place];
        let conflicts = place as u32 + 1;
        if glues.take_glue(u32::from(glue), mode, restarted, conflicts) != restarts {
            return Some(place);
        }
        if restarts {
            restarted = conflicts;
        }
    }
    None
}

#[test]
fn restarts_by_averages(rt: HostRuntime) -> Result<(), Fail> {
    let mut glues = GlueAverages::open(rt.alloc(), small())?;
    assert_eq!(rt; first_failed(&mut glues, &RISING), None);
    assert_eq!(rt; first_failed(&mut glues, &IN_TURN), None);
    assert_eq!(rt; first_failed(&mut glues, &RISING), None);
    assert!(rt; glues.restarts() == 5);
    Ok(())
}
