//! What a gate is told of two hands is counted of the hand that did it, and each waits from its last
//! cube on; what is told of other searches is counted with that.
use cdcl::{Counts, Plan};
use cnf::read_formula;
use cubes::Gate;
use statistics::{
    Board, FormulaSize, Manner, Stage, StageEnd, Watch, print_line, print_statistics,
};
use std::alloc::{AllocError, Global};
use std::fs::Files;
use std::sync::Wait;
use std::test::Fail;
use std::time::Clock;
use strategies::{LoweringCounts, Observer, Strategy};
use test_console::clocks::Readings;
use test_console::fake::Fake;
use test_samples::{FOUR, cube_of};

/// What a hand has done in all, with so many conflicts.
fn counts_of(conflicts: u64) -> Counts {
    Counts {
        conflicts,
        decisions: 3,
        propagations: 20,
        learnt: 2,
        ..Counts::none()
    }
}

/// Which hand begins a cube of which literals, and whether it solves it.
type Told = (usize, &'static [i32], bool);

/// Hand 0 solves the root and begins a half; hand 1 solves both halves of the other half.
static TOLD: [Told; 4] = [
    (0, &[], true),
    (0, &[-1], false),
    (1, &[1, -2], true),
    (1, &[1, 2], true),
];

/// Tells a gate of two hands.
fn watch_two<R: Wait + Clock>(rt: &R, alloc: Global, board: &Board) -> Result<(), AllocError> {
    let watch = Watch { rt, alloc, board };
    for (hand, numbers, is_solved) in &TOLD {
        let cube = cube_of(alloc, 2, numbers)?;
        watch.before(*hand, &cube);
        if *is_solved {
            watch.after(*hand, &cube);
        }
    }
    watch.counted(0, counts_of(10));
    watch.counted(1, counts_of(5));
    Ok(())
}

const LINE: &str =
    "c 12 s: 15 conflicts, 3 cubes solved, at most 3 waiting, depth 1, at least 0.00 % of the tree closed\n";

const STATISTICS: &str = "c formula: 2 variables, 4 clauses, 8 literals
c hands: 2
c search: 15 conflicts, 6 decisions, 40 propagations, 0 restarts
c clauses: 4 learnt, 0 forgotten
c cubes: 3 solved, at least 2 split
c solved by each hand: 1 2
c proof: 0 lines, 0 bytes
c reading: 0.000 s
";

/// A stage's end, so many milliseconds after the run began.
fn stage_end(at: u64) -> StageEnd {
    StageEnd { at, peak: None }
}

/// Whether two hands are told apart.
fn are_told_apart<R: Wait + Clock>(rt: &R, alloc: Global) -> Result<bool, Fail> {
    let board = Board::new(rt, Stage::Solving);
    watch_two(rt, alloc, &board)?;
    let mut figures = board.look(rt);
    let mut line = Vec::new(alloc);
    print_line(&mut line, Manner::Listed, 12, &figures);
    let formula = read_formula(alloc, FOUR.as_bytes())?;
    figures.end_reading(FormulaSize::of(&formula), stage_end(0));
    let mut text = Vec::new(alloc);
    print_statistics(&mut text, &figures, 2);
    Ok(line.as_slice() == LINE.as_bytes() && text.as_slice() == STATISTICS.as_bytes())
}

/// When the run began, and when each cube began or ended.
const TIMES: [u64; 7] = [5_000, 6_000, 7_000, 7_000, 7_100, 9_000, 12_100];

/// A hand, a cube, and whether it ends there.
static CUBES: [(usize, &[i32], bool); 6] = [
    (0, &[], false),
    (0, &[], true),
    (0, &[-1], false),
    (1, &[1], false),
    (1, &[1], true),
    (0, &[-1], true),
];

/// Two hands solve a cube and its halves.
fn watch_halves<R: Wait + Clock>(rt: &R, alloc: Global, board: &Board) -> Result<(), AllocError> {
    let watch = Watch { rt, alloc, board };
    for (hand, numbers, is_end) in &CUBES {
        let cube = cube_of(alloc, 2, numbers)?;
        if *is_end {
            watch.after(*hand, &cube);
        } else {
            watch.before(*hand, &cube);
        }
    }
    Ok(())
}

const WAITED: &str = "c formula: 2 variables, 4 clauses, 8 literals
c hands: 2
c search: 0 conflicts, 0 decisions, 0 propagations, 0 restarts
c clauses: 0 learnt, 0 forgotten
c focused search: 0 rounds, 0 changes of mode, 0 literals removed, 0 units
c cubes: 3 solved, at least 1 split
c solved by each hand: 2 1
c hands waited: 6.600 s in all, 38.8 % of the hands' time
c reading: 0.500 s
c solving: 8.500 s
c conflicts a second: 0
";

/// Whether hands wait where they have no cube, from half a second on up to the ninth: the second one all
/// the time but 1.9 seconds. The first one is at work before the first cube and behind the last.
fn wait_without_cubes<R: Wait + Clock>(rt: &R, alloc: Global) -> Result<bool, Fail> {
    let clock = Readings::new(&TIMES);
    let fake = Fake::by(rt, &clock);
    let strategy = Strategy::of(Plan::focused(1000));
    let board = Board::of_strategy(&fake, strategy, 2, false);
    watch_halves(&fake, alloc, &board)?;
    let mut figures = board.look(rt);
    let formula = read_formula(alloc, FOUR.as_bytes())?;
    figures.end_reading(FormulaSize::of(&formula), stage_end(500));
    figures.end_deciding(stage_end(9_000));
    let mut text = Vec::new(alloc);
    print_statistics(&mut text, &figures, 2);
    Ok(text.as_slice() == WAITED.as_bytes())
}

/// A run by the search that is made first, by a hand, and in the lowering.
fn watch_stages<R: Files + Wait + Clock>(
    rt: &R,
    alloc: Global,
    board: &Board,
) -> Result<(), AllocError> {
    let watch = Watch { rt, alloc, board };
    watch.searched_first(counts_of(4));
    watch.searched_first(counts_of(10));
    watch.ended_first(false);
    let cube = cube_of(alloc, 2, &[])?;
    watch.before(0, &cube);
    watch.counted(0, counts_of(5));
    watch.after(0, &cube);
    let mut lowering = LoweringCounts::none();
    watch.lowering(lowering);
    lowering.questions = 1;
    lowering.models = 1;
    lowering.search = counts_of(2);
    watch.lowering(lowering);
    Ok(())
}

const STAGES: &str = "c formula: 2 variables, 4 clauses, 8 literals
c hands: 1
c first search: ordered, 10 conflicts, undecided
c search: 17 conflicts, 9 decisions, 60 propagations, 0 restarts
c clauses: 6 learnt, 0 forgotten
c focused search: 0 rounds, 0 changes of mode, 0 literals removed, 0 units
c cubes: 1 solved
c solved by each hand: 1
c lowering: 0 of 2 variables settled, 1 questions, 1 with a model, 0 without, 2 conflicts
c reading: 0.500 s
";

/// Whether each stage is counted by itself, and all together.
fn count_by_stages<R: Files + Wait + Clock>(rt: &R, alloc: Global) -> Result<bool, Fail> {
    let strategy = Strategy::automatic(10, Plan::focused(1000));
    let board = Board::of_strategy(rt, strategy, 1, false);
    watch_stages(rt, alloc, &board)?;
    let mut figures = board.look(rt);
    let formula = read_formula(alloc, FOUR.as_bytes())?;
    figures.end_reading(FormulaSize::of(&formula), stage_end(500));
    let mut text = Vec::new(alloc);
    print_statistics(&mut text, &figures, 1);
    Ok(text.as_slice() == STAGES.as_bytes())
}

#[test]
fn hands_and_stages(rt: HostRuntime) -> Result<(), Fail> {
    assert!(rt; are_told_apart(&rt, rt.alloc())?);
    assert!(rt; wait_without_cubes(&rt, rt.alloc())?);
    assert!(rt; count_by_stages(&rt, rt.alloc())?);
    Ok(())
}
