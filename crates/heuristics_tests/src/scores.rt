//! Worked scores: which variable is the best after each act.
ghost use Rattle.std.specs.Prelude.{◌≡◌, ◌<◌, ◌≤◌, length, IfOk, OnOk};
ghost use Rattle.heuristics.specs.Rankings.{vars_of};
ghost use Rattle.heuristics_tests.specs.Counted.{AreFromOne};

use crate::numbers::small;
use heuristics::Mode::{Restarting, Stable};
use heuristics::{Mode, Scores};
use std::alloc::{AllocError, Global};
use std::test::Fail;

/// What is done to scores; nothing, where a number is no variable.
#[derive(Clone, Copy)]
enum Act {
    TakeOut(u32),
    PutBack(u32),
    /// A conflict that has seen these two, the second the greater one.
    See(Mode, u32, u32),
    /// A conflict that has seen the variables 1 to this.
    SeeTo(Mode, u32),
    BeginAgain,
}

/// Acts on four variables, and the best one after each.
static ROWS: [(Act, Option<u32>); 21] = [
    // all scores are 0
    (Act::PutBack(4), Some(4)),
    (Act::TakeOut(4), Some(3)),
    (Act::PutBack(4), Some(4)),
    // 0, 64, 64, 0; the step is 128
    (Act::See(Restarting, 2, 3), Some(3)),
    (Act::TakeOut(3), Some(2)),
    // 128, 192, 64, 0 and the step 256, by four 32, 48, 16, 0 and 64
    (Act::See(Restarting, 1, 2), Some(2)),
    (Act::TakeOut(2), Some(1)),
    (Act::PutBack(3), Some(1)),
    // 96, 48, 16, 64; the step is 96
    (Act::See(Stable, 1, 4), Some(1)),
    // 96, 144, 112, 64; the step is 144
    (Act::See(Stable, 2, 3), Some(3)),
    (Act::TakeOut(3), Some(1)),
    (Act::TakeOut(1), Some(4)),
    // 240, 144, 256, 64; the step is 216
    (Act::See(Stable, 1, 3), Some(4)),
    // 240, 144, 472, 280 and the step 432, by four 60, 36, 118, 70 and 108
    (Act::See(Restarting, 3, 4), Some(4)),
    (Act::TakeOut(4), None),
    (Act::TakeOut(4), None),
    (Act::PutBack(3), Some(3)),
    (Act::PutBack(2), Some(3)),
    (Act::BeginAgain, Some(3)),
    (Act::PutBack(1), Some(3)),
    // 64, 64, 0, 0
    (Act::See(Restarting, 1, 2), Some(2)),
];

/// The same on 24 variables: a conflict that has seen two of them has seen less than an eighth, and
/// the others more.
static MANY: [(Act, Option<u32>); 21] = [
    // 64 at 3 and 7, and 0
    (Act::See(Restarting, 3, 7), Some(7)),
    (Act::TakeOut(7), Some(3)),
    // 192 at 3 and 7, and 128; by four 48 and 32
    (Act::SeeTo(Restarting, 24), Some(3)),
    (Act::TakeOut(3), Some(24)),
    // 96 at 5 and 20, 48 at 3 and 7, and 32
    (Act::See(Restarting, 5, 20), Some(20)),
    (Act::TakeOut(5), Some(20)),
    // 224 at 5, 176 at 3 and 7, 160 at the others up to 12, 96 at 20, and 32
    (Act::SeeTo(Stable, 12), Some(12)),
    // by four 104 at 5, 92 at 3 and 7, 88 up to 12, 24 at 20, and 8
    (Act::SeeTo(Stable, 12), Some(12)),
    (Act::PutBack(7), Some(7)),
    (Act::PutBack(3), Some(7)),
    (Act::TakeOut(7), Some(3)),
    (Act::TakeOut(3), Some(12)),
    // 160 at 1 and 2
    (Act::See(Restarting, 1, 2), Some(2)),
    // 144 more at all
    (Act::SeeTo(Stable, 24), Some(2)),
    (Act::TakeOut(2), Some(1)),
    // all scores are 0
    (Act::BeginAgain, Some(24)),
    (Act::TakeOut(24), Some(23)),
    // all are 64
    (Act::SeeTo(Restarting, 24), Some(23)),
    // 192 at 1 and 3, and 64; by four 48 and 16
    (Act::See(Restarting, 1, 3), Some(1)),
    (Act::PutBack(24), Some(1)),
    (Act::BeginAgain, Some(24)),
];

/// The variables 1 to so many.
fn variables(alloc: Global, vars: u32) -> Result<Vec<u32>, AllocError>
    ensures { IfOk result (λ all. (length all.items ≡ vars) × AreFromOne all.items) }
{
    let mut all = Vec::new(alloc);
    for place in 0..vars {
        all.push(place + 1)?;
    }
    Ok(all)
}

/// Takes a conflict that has seen two of so many variables.
fn see(
    scores: &mut Scores,
    vars: usize,
    mode: Mode,
    first: u32,
    second: u32,
) -> Result<(), AllocError>
    requires vars { vars_of scores.old ≡ vars }
    requires variables { (1 ≤ first) × (first < second) × (second ≤ vars) }
    ensures { OnOk result (vars_of scores.new ≡ vars) }
{
    scores.learn_from(&[first, second], mode)?;
    Ok(())
}

/// Does an act on all variables.
fn perform(scores: &mut Scores, all: &[u32], act: Act) -> Result<(), AllocError>
    requires vars { vars_of scores.old ≡ length all.now }
    requires all { AreFromOne all.now }
    ensures { OnOk result (vars_of scores.new ≡ length all.now) }
{
    let vars = all.len();
    match act {
        Act::TakeOut(variable) if 1 <= variable && variable as usize <= vars => {
            scores.take_out(variable);
        }
        Act::PutBack(variable) if 1 <= variable && variable as usize <= vars => {
            scores.put_back(variable);
        }
        Act::See(mode, first, second) if 1 <= first && first < second && second as usize <= vars =>
            {
                see(scores, vars, mode, first, second)?;
            }
        Act::SeeTo(mode, last) if last as usize <= vars => {
            scores.learn_from(&all[..last as usize], mode)?;
        }
        Act::BeginAgain => scores.begin_again(),
        _ => {}
    }
    Ok(())
}

/// The first row after which another variable is the best.
fn first_failed(
    scores: &mut Scores,
    all: &[u32],
    rows: &[(Act, Option<u32>)],
) -> Result<Option<usize>, AllocError>
    requires vars { vars_of scores.old ≡ length all.now }
    requires all { AreFromOne all.now }
{
    for place in 0..rows.len() {
        let (next, best) = rows[place];
        perform(scores, all, next)?;
        if scores.best() != best {
            return Ok(Some(place));
        }
    }
    Ok(None)
}

/// The same of so many variables, from the first scores on.
fn failed(
    alloc: Global,
    vars: u32,
    rows: &[(Act, Option<u32>)],
) -> Result<Option<usize>, AllocError> {
    let all = variables(alloc, vars)?;
    let mut scores = Scores::open(alloc, vars, small())?;
    first_failed(&mut scores, &all, rows)
}

#[test]
fn the_best_waits(rt: HostRuntime) -> Result<(), Fail> {
    assert_eq!(rt; failed(rt.alloc(), 4, &ROWS)?, None);
    assert_eq!(rt; failed(rt.alloc(), 24, &MANY)?, None);
    Ok(())
}
