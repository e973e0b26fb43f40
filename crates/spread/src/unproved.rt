//! The cubes of a run of which its packs have no fact that is so. Each fact on the way is checked.
ghost use Rattle.std.specs.Prelude.{IfOk};
ghost use Rattle.theory.specs.Plans as plans;
ghost use Rattle.packs.specs.Checking.{IsChecking};

use crate::begun::begun_for;
use crate::folder::Folder;
use crate::left_open::root_alone;
use crate::open_cubes::{Tops, Word, put_halves, word_of};
use crate::pack_store::{PackStore, Place};
use crate::round_file::read_round;
use crate::run_file::RunFile;
use crate::said::{Said, say_no_memory};
use cdcl::{Plan, Search};
use cnf::{Formula, Lit};
use cubes::OpenGate;
use kernel::Cube;
use packs::{Claim, Fact, FactChecker};
use std::alloc::{AllocError, Global};
use std::collections::HashMap;
use std::fs::Files;
use std::io::Write;

/// What checks facts of a formula by the search of a plan.
fn open_checker(alloc: Global, formula: &Formula, plan: Plan) -> Result<FactChecker, AllocError>
    ensures { IfOk result (IsChecking plan.search formula.now) }
{
    match plan.search() {
        Search::Ordered => FactChecker::ordered(alloc, formula),
        Search::Focused => FactChecker::focused(alloc, formula),
    }
}

/// What is known of a cube.
#[derive(Clone, Copy, Debug, PartialEq, Eq)]
enum Known {
    /// A fact of it is so.
    Proved,
    /// None is, but it is claimed that it has a model.
    Claimed,
    Unproved,
}

/// Counts a fact that no check bears out; a model that is claimed only once the cube was solved.
fn count_unborne<R: Files>(store: &mut PackStore<'_, R>, place: Place, fact: &Fact) {
    let is_false = match fact.claim {
        Claim::Model => store.has_tried_model(),
        Claim::Split(_) | Claim::Refuted(_) => true,
    };
    if is_false {
        store.count_false(place);
    }
}

/// What the fact of a cube says that stands there, if it is so; if not, it is counted.
fn word_at<R: Files>(
    store: &mut PackStore<'_, R>,
    checker: &mut FactChecker,
    formula: &Formula,
    cube: &Cube,
    place: Place,
) -> Result<Option<Word>, AllocError>
    requires { (search : plans.Search) × IsChecking search formula.now checker.old }
    ensures { (search : plans.Search) → IsChecking search formula.now checker.old → IsChecking search formula.now checker.new }
{
    let Some(fact) = store.fact_at(place)? else {
        return Ok(None);
    };
    if fact.cube.lits() != cube.lits() {
        return Ok(None); // the file has changed
    }
    if checker.is_checked(formula, &fact)? {
        return Ok(Some(word_of(&fact.claim)));
    }
    count_unborne(store, place, &fact);
    Ok(None)
}

/// What the last fact of a cube says that is so, if there is one.
fn word_in<R: Files>(
    store: &mut PackStore<'_, R>,
    checker: &mut FactChecker,
    formula: &Formula,
    cube: &Cube,
) -> Result<Option<Word>, AllocError>
    requires { (search : plans.Search) × IsChecking search formula.now checker.old }
    ensures { (search : plans.Search) → IsChecking search formula.now checker.old → IsChecking search formula.now checker.new }
{
    let mut left = store.count_of(cube);
    'facts: while left > 0 {
        left -= 1;
        if let Some(place) = store.place_of(cube, left) {
            let word = word_at(store, checker, formula, cube, place)?;
            if word.is_some() {
                return Ok(word);
            }
        }
    }
    Ok(None)
}

/// What is known of a cube; the halves of one whose split is so go on the way.
fn known_of<R: Files>(
    store: &mut PackStore<'_, R>,
    checker: &mut FactChecker,
    formula: &Formula,
    way: &mut Vec<Cube>,
    cube: &Cube,
) -> Result<Known, AllocError>
    requires { (search : plans.Search) × IsChecking search formula.now checker.old }
    ensures { (search : plans.Search) → IsChecking search formula.now checker.old → IsChecking search formula.now checker.new }
{
    match word_in(store, checker, formula, cube)? {
        Some(Word::Refuted) => return Ok(Known::Proved),
        Some(Word::Split(var)) => {
            if put_halves(formula, way, cube, var)? {
                return Ok(Known::Proved);
            }
        }
        Some(Word::Model) | None => {}
    }
    if store.claims_model_of(cube) {
        Ok(Known::Claimed)
    } else {
        Ok(Known::Unproved)
    }
}

/// Of how many cubes there is no fact that is so, of those on a way, the last one first, and of what
/// their splits leave; to the first model that is claimed, if that is believed.
fn count_unproved<R: Files>(
    store: &mut PackStore<'_, R>,
    checker: &mut FactChecker,
    formula: &Formula,
    mut way: Vec<Cube>,
    believes: bool,
) -> Result<usize, AllocError>
    requires { (search : plans.Search) × IsChecking search formula.now checker.old }
    ensures { (search : plans.Search) → IsChecking search formula.now checker.old → IsChecking search formula.now checker.new }
{
    let mut count = 0usize;
    'cubes: for _ in 0..u64::MAX {
        let Some(cube) = way.pop() else {
            return Ok(count);
        };
        match known_of(store, checker, formula, &mut way, &cube)? {
            Known::Proved => {}
            Known::Claimed if believes => return Ok(count),
            Known::Claimed | Known::Unproved => count = count.saturating_add(1),
        }
    }
    Err(AllocError) // no memory holds facts of so many cubes
}

/// Whether a cube, or one below it, has no fact that is so.
fn is_doubtful<R: Files>(
    alloc: Global,
    store: &mut PackStore<'_, R>,
    checker: &mut FactChecker,
    formula: &Formula,
    cube: &Cube,
) -> Result<bool, AllocError>
    requires { (search : plans.Search) × IsChecking search formula.now checker.old }
    ensures { (search : plans.Search) → IsChecking search formula.now checker.old → IsChecking search formula.now checker.new }
{
    let mut way = Vec::new(alloc);
    way.push(cube.copied()?)?;
    let count = count_unproved(store, checker, formula, way, false)?;
    Ok(count > 0)
}

/// By which variable each cube is split above some cubes, by its literals.
fn splits_above(alloc: Global, cubes: &[Cube]) -> Result<HashMap<Vec<Lit>, u32>, AllocError> {
    let mut splits = HashMap::new(alloc);
    for cube in cubes {
        put_splits(alloc, &mut splits, cube)?;
    }
    Ok(splits)
}

fn put_splits(
    alloc: Global,
    splits: &mut HashMap<Vec<Lit>, u32>,
    cube: &Cube,
) -> Result<(), AllocError> {
    let lits = cube.lits();
    for (count, lit) in lits.iter().enumerate() {
        splits.insert(Vec::from_slice(alloc, &lits[..count])?, lit.var())?;
    }
    Ok(())
}

/// The leaves of the least tree that has these cubes: the cubes themselves, and the halves beside the ways
/// to them. Of the tree that a division grew these others are refuted, or all that lies below them is.
fn leaves_around(
    alloc: Global,
    formula: &Formula,
    cubes: &[Cube],
) -> Result<Vec<Cube>, AllocError> {
    let splits = splits_above(alloc, cubes)?;
    let mut leaves = Vec::new(alloc);
    let mut way = root_alone(alloc)?;
    'cubes: for _ in 0..u64::MAX {
        let Some(cube) = way.pop() else {
            return Ok(leaves);
        };
        if let Some(var) = splits.get(cube.lits()).copied() {
            if put_halves(formula, &mut way, &cube, var)? {
                continue 'cubes;
            }
        }
        leaves.push(cube)?;
    }
    Err(AllocError) // no memory holds so many cubes
}

/// Those of the leaves around some cubes that have no fact that is so, or one below them hasn't.
fn doubtful_of<R: Files>(
    alloc: Global,
    store: &mut PackStore<'_, R>,
    formula: &Formula,
    plan: Plan,
    cubes: &[Cube],
) -> Result<Tops, AllocError> {
    let mut checker = open_checker(alloc, formula, plan)?;
    let mut doubtful = Vec::new(alloc);
    'cubes: for cube in leaves_around(alloc, formula, cubes)? {
        if is_doubtful(alloc, store, &mut checker, formula, &cube)? {
            doubtful.push(cube)?;
        }
    }
    Tops::of(alloc, &doubtful)
}

/// Of how many cubes of the whole tree there is no fact that is so.
fn count_in_tree<R: Files>(
    alloc: Global,
    store: &mut PackStore<'_, R>,
    formula: &Formula,
    plan: Plan,
) -> Result<usize, AllocError> {
    let mut checker = open_checker(alloc, formula, plan)?;
    let believes = !store.has_tried_model();
    let root = root_alone(alloc)?;
    count_unproved(store, &mut checker, formula, root, believes)
}

/// Of how many cubes of a run its packs have no fact that is so, up to the first model that they
/// claim unless that was found not to be so; or that memory was refused, which is said. It says which packs
/// have facts that aren't so. It checks all facts on the way, in one thread.
pub fn unproved_in<R: Files, E: Write>(
    alloc: Global,
    folder: Folder,
    run: &RunFile,
    formula: &Formula,
    store: &mut PackStore<'_, R>,
    faults: &mut E,
) -> Result<usize, Said> {
    let begun = begun_for(alloc, folder.path, formula, run.plan, &OpenGate, faults)?;
    let searched = begun.formula(formula);
    match count_in_tree(alloc, store, searched, run.plan) {
        Ok(count) => {
            store.say_false(faults);
            Ok(count)
        }
        Err(_) => Err(say_no_memory(faults, folder.path)),
    }
}

/// The cubes of a run's first round, which its division made; where they can't be read, the one without
/// literals.
fn divided_cubes<R: Files>(
    rt: &R,
    alloc: Global,
    folder: Folder,
    formula: &Formula,
) -> Result<Vec<Cube>, AllocError> {
    let mut said = Vec::new(alloc);
    match read_round(rt, alloc, folder, 1, formula, &mut said) {
        Ok(cubes) => Ok(cubes),
        Err(Said) => root_alone(alloc),
    }
}

/// Withholds the splits that packs claim in the cubes that a run's division left, open or refuted, and in
/// which a cube will be solved: there the tree grows by the plan alone, however many splits the packs
/// claim. Or that memory was refused, which is said. It checks all facts below these cubes, in one thread.
pub fn withhold_splits<R: Files, E: Write>(
    rt: &R,
    alloc: Global,
    folder: Folder,
    run: &RunFile,
    formula: &Formula,
    store: &mut PackStore<'_, R>,
    faults: &mut E,
) -> Result<(), Said> {
    let Ok(cubes) = divided_cubes(rt, alloc, folder, formula) else {
        return Err(say_no_memory(faults, folder.path));
    };
    let begun = begun_for(alloc, folder.path, formula, run.plan, &OpenGate, faults)?;
    let searched = begun.formula(formula);
    match doubtful_of(alloc, store, searched, run.plan, &cubes) {
        Ok(tops) => store.doubt(tops),
        Err(_) => return Err(say_no_memory(faults, folder.path)),
    }
    Ok(())
}
