//! What packs have. Each is gone through once, several of them side by side.
ghost use Rattle.std.specs.Prelude.{◌≡◌, ◌++◌, ◌∷◌, ◌+◌, ◌^◌, ◌-◌, [], min, ℕ, List, IfOk, OnOk, MatchOption, string_bytes};
ghost use Rattle.spread.specs.Found.{is_model, HasFound, IsTaken};
ghost use Rattle.spread.specs.Passages.{IsBetween, IsWithin};

use crate::folder::Folder;
use crate::pack_file::{Passage, Span, head_of, name_by, open_passage};
use crate::run_file::RunFile;
use cubes::HandCount;
use kernel::Cube;
use packs::{Claim, Fact, FactReader};
use std::alloc::{AllocError, Global};
use std::fs::Files;
use std::io::Read;
use std::thread::Threads;
use std::{io, thread};

/// A cube, and where a fact of it stands.
#[derive(Drop)]
pub(crate) struct Entry {
    pub(crate) cube: Cube,
    pub(crate) span: Span,
    /// Whether it claims a model.
    pub(crate) claims_model: bool,
}

/// What a pack has.
#[derive(Drop)]
pub(crate) struct Found {
    /// Its facts, in their order.
    pub(crate) facts: Vec<Entry>,
    /// So many bodies were passed over, since they are no facts.
    pub(crate) passed_over: u64,
    pub(crate) is_broken_off: bool,
}

/// Whether it is said that the cube has a model.
fn is_model(claim: &Claim) -> bool
    ensures { result ≡ is_model claim.now }
{
    match claim {
        Claim::Model => true,
        Claim::Split(_) | Claim::Refuted(_) => false,
    }
}

impl Found {
    fn put(&mut self, fact: Option<Fact>, span: Span) -> Result<(), AllocError>
        ensures { OnOk result (MatchOption fact
            ((self.new.facts.items ≡ self.old.facts.items) × (self.new.passed_over ≡ min (self.old.passed_over + 1) (2 ^ 64 - 1)))
            (λ f. (self.new.facts.items ≡ self.old.facts.items ++ record { cube = f.cube; span = span; claims_model = is_model f.claim } ∷ []) × (self.new.passed_over ≡ self.old.passed_over))) }
    {
        match fact {
            Some(fact) => {
                let Fact { cube, claim } = fact;
                let claims_model = is_model(&claim);
                self.facts.push(Entry {
                    cube,
                    span,
                    claims_model,
                })?;
            }
            None => self.passed_over = self.passed_over.saturating_add(1),
        }
        Ok(())
    }
}

/// What comes in a pack from here on.
fn found_in<R: Read>(
    alloc: Global,
    passage: &mut Passage<R>,
    reader: &mut FactReader,
) -> io::Result<Found>
    ensures { (before behind : List ℕ) → IsBetween R.remaining passage.old before behind →
        IfOk result (λ found. IsWithin R.remaining passage.new (before ++ behind) × HasFound reader.old (before ++ behind) behind found) }
{
    let mut found = Found {
        facts: Vec::new(alloc),
        passed_over: 0,
        is_broken_off: false,
    };
    let mut body = Vec::new(alloc);
    while let Some(span) = passage.next(&mut body)? {
        let fact = reader.read(body)?;
        found.put(fact, span)?;
        body = Vec::new(alloc);
    }
    found.is_broken_off = passage.is_broken_off();
    Ok(found)
}

/// What a pack of this name has, if it is a whole one of the run: it begins with the first line of
/// the run's packs, and its name is made of its bytes.
fn found_by<R: Read + Drop>(
    alloc: Global,
    run: &RunFile,
    name: &str,
    mut passage: Passage<R>,
    reader: &mut FactReader,
) -> io::Result<Option<Found>>
    ensures { (bytes : List ℕ) → IsBetween R.remaining passage [] bytes →
        IfOk result (IsTaken reader.old (string_bytes run.now.sum) name.now bytes) }
{
    let head = head_of(alloc, run)?;
    if !passage.has(alloc, head.as_bytes())? {
        return Ok(None);
    }
    let found = found_in(alloc, &mut passage, reader)?;
    let sum = passage.sum(alloc)?;
    let own = name_by(alloc, sum.as_str())?;
    if name != own.as_str() {
        return Ok(None);
    }
    Ok(Some(found))
}

/// What the pack of this name has, which lies there, if it is a whole one of the run.
pub(crate) fn found_at<R: Files>(
    rt: &R,
    alloc: Global,
    run: &RunFile,
    name: &str,
    path: &str,
    reader: &mut FactReader,
) -> io::Result<Option<Found>> {
    let passage = open_passage(rt, alloc, path)?;
    found_by(alloc, run, name, passage, reader)
}

/// What a pack has that lies there; none if it isn't a whole one of the run.
#[derive(Drop)]
pub(crate) struct FoundPack {
    pub(crate) path: String,
    pub(crate) found: io::Result<Option<Found>>,
}

/// What the packs of these names have, in their order.
fn found_in_turn<R: Files>(
    rt: &R,
    alloc: Global,
    folder: Folder,
    run: &RunFile,
    vars: u32,
    names: &[String],
) -> Result<Vec<FoundPack>, AllocError> {
    let mut reader = FactReader::open(alloc, vars)?;
    let mut packs = Vec::new(alloc);
    for name in names {
        let path = folder.pack(alloc, name.as_str())?;
        let found = found_at(rt, alloc, run, name.as_str(), path.as_str(), &mut reader);
        packs.push(FoundPack { path, found })?;
    }
    Ok(packs)
}

/// What the packs of these names have, over so many variables, by shares of as many packs, in their
/// order. Each share is gone through by a hand, in a thread of its own where one can be started. It
/// takes memory by the cubes of the facts and, for each hand, by the longest fact, and fails where a
/// request for memory is refused.
pub(crate) fn packs_by_hands<R: Files + Threads + Sync>(
    rt: &R,
    alloc: Global,
    folder: Folder,
    run: &RunFile,
    vars: u32,
    names: &[String],
    hands: HandCount,
) -> Result<Vec<Vec<FoundPack>>, AllocError>
where
    R::File: Send,
    R::Dir: Send,
{
    let share = names.len().div_ceil(hands.get()).max(1);
    let found = thread::map_chunks(
        rt,
        alloc,
        names,
        share,
        &|_, names: &[String]| { found_in_turn(rt, alloc, folder, run, vars, names) },
    )?;
    found.into_iter().try_collect(alloc)
}
