//! The cubes that facts leave open.
ghost use Rattle.std.specs.HashMap.{values};
ghost use Rattle.std.specs.Prelude.{◌≡◌, ◌↔◌, true, false, List, [], ◌∷◌, ◌++◌, if◌then◌else◌, reverse, All, None, IfOk, OnOk, IsTrue, count_by};
ghost use Rattle.theory.specs.Literals.{Literal};
ghost use Rattle.theory.specs.Trees.{false_half, true_half};
ghost use Rattle.theory.specs.Checked.{IsFitSplit};
ghost use Rattle.spread.specs.OpenCubes.{said_in, word_by, is_solved, said_behind, IsTop, IsBelowTop, LeavesOpen, IsOnTheWay};

use cdcl::split;
use cnf::{Formula, Lit};
use kernel::Cube;
use packs::{Claim, Fact, is_fit_split};
use std::alloc::{AllocError, Global};
use std::collections::{HashMap, HashSet};

/// What is said of a cube, without the lines of a refuted one.
#[derive(Clone, Copy)]
pub(crate) enum Word {
    Split(u32),
    Refuted,
    Model,
}

pub(crate) fn word_of(claim: &Claim) -> Word
    ensures { result ≡ word_by claim.now }
{
    match claim {
        Claim::Split(var) => Word::Split(*var),
        Claim::Refuted(_) => Word::Refuted,
        Claim::Model => Word::Model,
    }
}

/// Whether a cube of which this is said is solved.
fn is_solved(word: &Word) -> bool
    ensures { result ≡ is_solved word.now }
{
    match word {
        Word::Refuted | Word::Model => true,
        Word::Split(_) => false,
    }
}

/// Cubes above which nothing is asked for, by their literals.
pub(crate) struct Tops {
    lits: HashSet<Vec<Lit>>,
    /// How many literals the shortest and the longest one have.
    shortest: usize,
    longest: usize,
}

// written out, so that proofs of its owners stay short (docs/PROVING.md)
impl Drop for Tops {
    fn drop(self) {
        let Tops {
            lits: _,
            shortest: _,
            longest: _,
        } = self;
    }
}

impl Tops {
    pub(crate) fn of(alloc: Global, cubes: &[Cube]) -> Result<Tops, AllocError>
        ensures { IfOk result (λ tops. All (IsTop tops) cubes.now) }
    {
        let mut tops = Tops {
            lits: HashSet::new(alloc),
            shortest: usize::MAX,
            longest: 0,
        };
        for cube in cubes {
            let lits = cube.lits();
            tops.lits.insert(Vec::from_slice(alloc, lits)?)?;
            tops.shortest = tops.shortest.min(lits.len());
            tops.longest = tops.longest.max(lits.len());
        }
        Ok(tops)
    }

    /// Whether these are the literals of one of them, or of a cube below one.
    pub(crate) fn are_above(&self, lits: &[Lit]) -> bool
        ensures { IsTrue result ↔ IsBelowTop self.now lits.now }
    {
        let end = self.longest.min(lits.len()) + 1;
        for count in self.shortest..end {
            if self.lits.contains(&lits[..count]) {
                return true;
            }
        }
        false
    }
}

/// What facts say of some cubes and those below them, by the cubes' literals. It takes memory by
/// these.
pub(crate) struct Words {
    tops: Tops,
    by_cube: HashMap<Vec<Lit>, Word>,
}

// written out, so that proofs of its owners stay short (docs/PROVING.md)
impl Drop for Words {
    fn drop(self) {
        let Words {
            tops: _,
            by_cube: _,
        } = self;
    }
}

impl Words {
    /// Words of these cubes and of those below them, of which nothing is said yet.
    pub(crate) fn of(alloc: Global, cubes: &[Cube]) -> Result<Words, AllocError>
        ensures tops { IfOk result (λ words. All (IsTop words.tops) cubes.now) }
        ensures none { IfOk result (λ words. (Q : List Literal) → said_in words Q ≡ None) }
    {
        Ok(Words {
            tops: Tops::of(alloc, cubes)?,
            by_cube: HashMap::new(alloc),
        })
    }

    /// Takes up what facts say. Of two facts of one cube the later one serves.
    pub(crate) fn add(&mut self, alloc: Global, facts: &[Fact]) -> Result<(), AllocError>
        ensures tops { self.new.tops ≡ self.old.tops }
        ensures said { OnOk result ((Q : List Literal) → IsBelowTop self.old.tops Q → said_in self.new Q ≡ said_behind Q (said_in self.old Q) facts.now) }
    {
        for fact in facts {
            let lits = fact.cube.lits();
            if self.tops.are_above(lits) {
                let word = word_of(&fact.claim);
                self.by_cube.insert(Vec::from_slice(alloc, lits)?, word)?;
            }
        }
        Ok(())
    }

    /// Of how many cubes it is said that they are solved.
    fn count_solved(&self) -> usize
        ensures { result ≡ count_by is_solved (values self.now.by_cube) }
    {
        self.by_cube
            .values()
            .filter(|word| is_solved(*word))
            .count()
    }

    fn of_cube(&self, cube: &Cube) -> Option<Word>
        ensures { result ≡ said_in self.now cube.now }
    {
        self.by_cube.get(cube.lits()).copied()
    }
}

/// The cubes that are open, from left to right, and whether a model was claimed right of them.
#[derive(Drop)]
pub(crate) struct OpenCubes {
    pub(crate) cubes: Vec<Cube>,
    pub(crate) has_model: bool,
    /// Of how many cubes it is said that they are solved.
    pub(crate) solved: usize,
}

/// Puts the halves of a cube on the way, so that the left one comes first; whether they could be.
pub(crate) fn put_halves(
    formula: &Formula,
    way: &mut Vec<Cube>,
    cube: &Cube,
    var: u32,
) -> Result<bool, AllocError>
    ensures fit { IfOk result (λ fit. IsTrue fit ↔ IsFitSplit formula.now cube.now var) }
    ensures way { IfOk result (λ fit. way.new.items ≡ (if fit then way.old.items ++ true_half cube.now var ∷ false_half cube.now var ∷ [] else way.old.items)) }
{
    let _vars = formula.vars(); // it ensures what the proof needs of the variable
    if !is_fit_split(formula, cube, var) {
        return Ok(false);
    }
    let (left, right) = split(cube, var)?;
    way.push(right)?;
    way.push(left)?;
    Ok(true)
}

/// Takes up what is said of a cube: its halves go on the way, or it is open, or refuted; whether a
/// model is claimed of it.
fn take_up(
    formula: &Formula,
    words: &Words,
    way: &mut Vec<Cube>,
    cube: Cube,
    left: &mut Vec<Cube>,
) -> Result<bool, AllocError>
    ensures model { (cubes : List (List Literal)) → IsOnTheWay formula.now (said_in words.now) cubes left.old.items (cube ∷ reverse way.old.items) →
        IfOk result (λ has_model. has_model ≡ true → LeavesOpen formula.now (said_in words.now) cubes left.new.items true) }
    ensures goes_on { (cubes : List (List Literal)) → IsOnTheWay formula.now (said_in words.now) cubes left.old.items (cube ∷ reverse way.old.items) →
        IfOk result (λ has_model. has_model ≡ false → IsOnTheWay formula.now (said_in words.now) cubes left.new.items (reverse way.new.items)) }
{
    match words.of_cube(&cube) {
        Some(Word::Refuted) => return Ok(false),
        Some(Word::Model) => return Ok(true),
        Some(Word::Split(var)) => {
            if put_halves(formula, way, &cube, var)? {
                return Ok(false);
            }
        }
        None => {}
    }
    left.push(cube)?;
    Ok(false)
}

/// The cubes that facts, which may be any, leave open of those on the way, of which the last one
/// comes first: of the trees that they say below these, the cubes of which nothing is said, up to
/// the first model that is claimed. It takes time and memory by the way, and by the facts of its
/// cubes and of cubes below these.
pub(crate) fn open_cubes(
    alloc: Global,
    formula: &Formula,
    words: &Words,
    mut way: Vec<Cube>,
) -> Result<OpenCubes, AllocError>
    ensures { IfOk result (λ left. LeavesOpen formula.now (said_in words.now) (reverse way.items) left.cubes.items left.has_model) }
{
    let mut left = OpenCubes {
        cubes: Vec::new(alloc),
        has_model: false,
        solved: words.count_solved(),
    };
    'cubes: for _ in 0..u64::MAX {
        let Some(cube) = way.pop() else {
            return Ok(left);
        };
        if take_up(formula, words, &mut way, cube, &mut left.cubes)? {
            left.has_model = true;
            return Ok(left);
        }
    }
    Err(AllocError) // no memory holds words of so many cubes
}
