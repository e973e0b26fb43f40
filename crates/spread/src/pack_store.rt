//! The facts of a run's packs, of which only the places are in memory.

use crate::folder::Folder;
use crate::found::{Entry, Found, FoundPack, packs_by_hands};
use crate::open_cubes::Tops;
use crate::pack_file::{NOT_WHOLE, Span, packs_of};
use crate::run_file::RunFile;
use crate::said::{Said, say, say_error, say_no_memory};
use cubes::HandCount;
use gathering::{CubeTable, KeepsFacts};
use kernel::Cube;
use packs::{Claim, Fact, FactReader};
use std::alloc::{AllocError, Global};
use std::collections::HashMap;
use std::fs::Files;
use std::io::{BufReader, ErrorKind, Read, Seek, SeekFrom, Write};
use std::thread::Threads;
use std::{fs, io};

/// Where a fact stands.
#[derive(Clone, Copy, Debug, PartialEq, Eq)]
pub(crate) struct Place {
    // the number of its pack
    pack: usize,
    span: Span,
    claims_model: bool,
}

/// What packs had. Each number stops at the greatest one.
#[derive(Clone, Copy, Debug, PartialEq, Eq)]
pub struct StoreCounts {
    /// So many facts were read.
    pub facts: u64,
    /// So many bodies were passed over, since they are no facts over the formula's variables.
    pub passed_over: u64,
    /// So many packs break off.
    pub broken_off: u64,
}

/// The facts of a run's packs. Where each stands is kept, and each is read when it is asked for. Where
/// none of a cube's is checked, the cube is solved, or the way through the tree ends there.
#[derive(Drop)]
pub struct PackStore<'a, R: Files> {
    rt: &'a R,
    alloc: Global,
    reader: FactReader,
    // the packs' paths
    paths: Vec<String>,
    places: CubeTable<Place>,
    open: OpenPacks<R::File>,
    counts: StoreCounts,
    claims_model: bool,
    // so many facts of each pack were found not to be so
    false_facts: Vec<u64>,
    // no split of these cubes is given, nor of those below them
    doubtful: Tops,
    solves: bool,
    has_tried_model: bool,
    has_ended: bool,
}

impl<'a, R: Files> PackStore<'a, R> {
    fn new(rt: &'a R, alloc: Global, vars: u32) -> Result<PackStore<'a, R>, AllocError> {
        Ok(PackStore {
            rt,
            alloc,
            reader: FactReader::open(alloc, vars)?,
            paths: Vec::new(alloc),
            places: CubeTable::new(alloc),
            open: OpenPacks::new(alloc),
            counts: StoreCounts {
                facts: 0,
                passed_over: 0,
                broken_off: 0,
            },
            claims_model: false,
            false_facts: Vec::new(alloc),
            doubtful: Tops::of(alloc, &[])?,
            solves: true,
            has_tried_model: false,
            has_ended: false,
        })
    }

    /// The store by which nothing is solved: where no fact of a cube is checked, the way through the
    /// tree ends, as for want of memory. Only one cube is solved of which a model is claimed, since
    /// nothing else tells whether that is so.
    pub fn without_solving(mut self) -> PackStore<'a, R> {
        self.solves = false;
        self
    }

    /// Whether a way through the tree ended at a cube, since no fact of it is checked.
    pub fn has_ended(&self) -> bool {
        self.has_ended
    }

    /// Whether a cube was solved of which a model is claimed.
    pub(crate) fn has_tried_model(&self) -> bool {
        self.has_tried_model
    }

    /// Gives no split of these cubes from now on, nor of those below them.
    pub(crate) fn doubt(&mut self, cubes: Tops) {
        self.doubtful = cubes;
    }

    /// How many facts it has of a cube.
    pub(crate) fn count_of(&self, cube: &Cube) -> usize {
        self.places.count(cube)
    }

    /// Where the fact of a cube with this number stands, from 0 on.
    pub(crate) fn place_of(&self, cube: &Cube, number: usize) -> Option<Place> {
        self.places.item(cube, number).copied()
    }

    /// Whether a fact claims a model of the cube.
    pub(crate) fn claims_model_of(&self, cube: &Cube) -> bool {
        for number in 0..self.places.count(cube) {
            if let Some(place) = self.places.item(cube, number) {
                if place.claims_model {
                    return true;
                }
            }
        }
        false
    }

    /// Counts the fact that stands there as one that isn't so.
    pub(crate) fn count_false(&mut self, place: Place) {
        if let Some(count) = self.false_facts.get_mut(place.pack) {
            *count = count.saturating_add(1);
        }
    }

    /// Says of which packs facts were found not to be so, and of how many.
    pub(crate) fn say_false<E: Write>(&self, faults: &mut E) {
        for (path, count) in self.paths.iter().zip(&self.false_facts) {
            say_false_of(faults, path.as_str(), *count);
        }
    }

    /// What is given of a cube of which no fact is checked, or that the way ends there.
    fn none_checked(&mut self, cube: &Cube) -> Result<Option<Fact>, AllocError> {
        if self.solves {
            return Ok(None);
        }
        if !self.has_tried_model && self.claims_model_of(cube) {
            self.has_tried_model = true;
            return Ok(None);
        }
        self.has_ended = true;
        Err(AllocError)
    }

    /// What was read.
    pub fn counts(&self) -> StoreCounts {
        self.counts
    }

    /// Whether a fact that was read claims a model; nobody vouches for it.
    pub fn claims_model(&self) -> bool {
        self.claims_model
    }

    fn count_found(&mut self, found: &Found) {
        let counts = &mut self.counts;
        counts.facts = counts.facts.saturating_add(found.facts.len() as u64);
        counts.passed_over = counts.passed_over.saturating_add(found.passed_over);
        counts.broken_off = counts
            .broken_off
            .saturating_add(u64::from(found.is_broken_off));
    }

    /// Puts what a pack has behind what others have.
    fn put(&mut self, path: String, found: Found) -> Result<(), AllocError> {
        self.count_found(&found);
        let pack = self.paths.len();
        self.paths.push(path)?;
        self.false_facts.push(0)?;
        for entry in found.facts {
            let Entry {
                cube,
                span,
                claims_model,
            } = entry;
            self.claims_model |= claims_model;
            let place = Place {
                pack,
                span,
                claims_model,
            };
            self.places.put(cube, place)?;
        }
        Ok(())
    }

    /// The body that stands there, if it can be read; it fails where a request for memory is
    /// refused.
    fn body_at(&mut self, place: Place) -> Result<Option<Vec<u8>>, AllocError> {
        let Some(path) = self.paths.get(place.pack) else {
            return Ok(None);
        };
        let path = path.as_str();
        match self
            .open
            .read(self.rt, self.alloc, place.pack, path, place.span)
        {
            Ok(body) => Ok(Some(body)),
            Err(error) if error.kind() == ErrorKind::OutOfMemory => Err(AllocError),
            Err(_) => Ok(None),
        }
    }

    /// Whether a fact is a split that isn't given.
    fn is_withheld(&self, fact: &Fact) -> bool {
        match fact.claim {
            Claim::Split(_) => self.doubtful.are_above(fact.cube.lits()),
            Claim::Refuted(_) | Claim::Model => false,
        }
    }

    /// The fact that stands there, if it can be read and is given.
    pub(crate) fn fact_at(&mut self, place: Place) -> Result<Option<Fact>, AllocError> {
        let Some(body) = self.body_at(place)? else {
            return Ok(None);
        };
        match self.reader.read(body)? {
            Some(fact) if self.is_withheld(&fact) => Ok(None),
            fact => Ok(fact),
        }
    }
}

/// Says how many facts of a pack aren't so, if there are any.
fn say_false_of<E: Write>(faults: &mut E, path: &str, count: u64) {
    let words = match count {
        0 => return,
        1 => "fact that isn't so",
        _ => "facts that aren't so",
    };
    let _ = writeln!(
        faults,
        "cubesat: {path}: {count} {words}; take the pack away before the next round is written"
    );
}

impl<R: Files> KeepsFacts for PackStore<'_, R> {
    // The last one is asked for first, so number 0 is none of the packs' and comes where none of these
    // is checked.
    fn count(&self, cube: &Cube) -> usize {
        self.count_of(cube).saturating_add(1)
    }

    fn fact(&mut self, cube: &Cube, number: usize) -> Result<Option<Fact>, AllocError> {
        let Some(number) = number.checked_sub(1) else {
            return self.none_checked(cube);
        };
        match self.place_of(cube, number) {
            Some(place) => self.fact_at(place),
            None => Ok(None),
        }
    }

    fn ordered(&self) -> usize {
        self.places.len()
    }

    fn in_order(&mut self, number: usize) -> Result<Option<Fact>, AllocError> {
        let place = match self.places.last_at(number) {
            Some(place) => *place,
            None => return Ok(None),
        };
        self.fact_at(place)
    }
}

/// Puts what a pack has into a store. If it isn't whole or can't be read, that is said, and it
/// counts as missing.
fn add<R: Files, E: Write>(
    store: &mut PackStore<'_, R>,
    pack: FoundPack,
    faults: &mut E,
) -> Result<(), AllocError> {
    let FoundPack { path, found } = pack;
    match found {
        Ok(Some(found)) => store.put(path, found)?,
        Ok(None) => {
            let _ = say(faults, path.as_str(), NOT_WHOLE);
        }
        Err(error) if error.kind() == ErrorKind::OutOfMemory => return Err(AllocError),
        Err(error) => {
            let _ = say_error(faults, path.as_str(), error);
        }
    }
    Ok(())
}

/// Puts what these packs have into a store, in their order.
fn add_all<R: Files, E: Write>(
    store: &mut PackStore<'_, R>,
    packs: Vec<FoundPack>,
    faults: &mut E,
) -> Result<(), AllocError> {
    for pack in packs {
        add(store, pack, faults)?;
    }
    Ok(())
}

/// A store of what hands found in packs, over so many variables, in the packs' order.
fn store_of<'a, R: Files, E: Write>(
    rt: &'a R,
    alloc: Global,
    vars: u32,
    found: Vec<Vec<FoundPack>>,
    faults: &mut E,
) -> Result<PackStore<'a, R>, AllocError> {
    let mut store = PackStore::new(rt, alloc, vars)?;
    for packs in found {
        add_all(&mut store, packs, faults)?;
    }
    store.places.sort()?;
    Ok(store)
}

/// A store of the facts of a run's packs, over so many variables, in the order of the packs' names,
/// or why there is none, which is said. Each pack is read once, piece by piece, by one of the hands.
/// One that can't be read, is damaged or is another run's is named, and counts as missing. It takes
/// memory by the cubes of the facts and, for each hand, by the longest fact.
pub fn store_in<'a, R: Files + Threads + Sync + Alloc + Clone + Drop, E: Write>(
    rt: &'a R,
    alloc: Global,
    folder: Folder,
    run: &RunFile,
    vars: u32,
    hands: HandCount,
    faults: &mut E,
) -> Result<PackStore<'a, R>, Said>
where
    R::File: Send,
    R::Dir: Send,
{
    let names = packs_of(rt, alloc, folder, faults)?;
    let found = match packs_by_hands(rt, alloc, folder, run, vars, &names, hands) {
        Ok(found) => found,
        Err(_) => return Err(say_no_memory(faults, folder.path)),
    };
    match store_of(rt, alloc, vars, found, faults) {
        Ok(store) => Ok(store),
        Err(_) => Err(say_no_memory(faults, folder.path)),
    }
}

/// As many packs are kept open. Facts of cubes from left to right lie in the packs of all parts in
/// turn, so one alone would be opened anew for each.
const MOST: usize = 200;

/// A pack that is open.
#[derive(Drop)]
struct OpenPack<F> {
    reader: BufReader<F>,
    // where the reader stands
    at: u64,
}

impl<F: Read + Seek> OpenPack<F> {
    /// Goes to a place. What was read ahead is kept where the place lies in it.
    fn go_to(&mut self, start: u64) -> io::Result<()> {
        let at = self.at;
        if let Some(ahead) = start.checked_sub(at) {
            if let Ok(offset) = i64::try_from(ahead) {
                self.reader.seek_relative(offset)?;
                self.at = start;
                return Ok(());
            }
        }
        self.reader.seek(SeekFrom::Start(start))?;
        self.at = start;
        Ok(())
    }

    /// The bytes that stand there.
    fn read(&mut self, alloc: Global, span: Span) -> io::Result<Vec<u8>> {
        self.go_to(span.start)?;
        let mut body = vec![in alloc; 0; span.length as usize]?;
        self.reader.read_exact(&mut body)?;
        self.at = span.start.saturating_add(span.length);
        Ok(body)
    }
}

/// Opens a pack.
fn opened<R: Files>(rt: &R, alloc: Global, path: &str) -> io::Result<OpenPack<R::File>> {
    let file = fs::open(rt, path)?;
    Ok(OpenPack {
        reader: BufReader::new(alloc, file)?,
        at: 0,
    })
}

/// Packs by their numbers.
#[derive(Drop)]
pub(crate) struct OpenPacks<F: Drop> {
    packs: HashMap<usize, OpenPack<F>>,
}

impl<F: Read + Seek + Drop> OpenPacks<F> {
    /// None is open.
    pub(crate) fn new(alloc: Global) -> OpenPacks<F> {
        OpenPacks {
            packs: HashMap::new(alloc),
        }
    }

    /// Takes the pack of this number out, which lies there, and opens it if it isn't open.
    fn take<R: Files<File = F>>(
        &mut self,
        rt: &R,
        alloc: Global,
        number: usize,
        path: &str,
    ) -> io::Result<OpenPack<F>> {
        if let Some(pack) = self.packs.remove(&number) {
            return Ok(pack);
        }
        if self.packs.len() >= MOST {
            self.packs.clear();
        }
        match opened(rt, alloc, path) {
            Ok(pack) => Ok(pack),
            Err(error) if error.kind() == ErrorKind::NotFound => Err(error),
            // the system may allow less open files
            Err(_) => {
                self.packs.clear();
                opened(rt, alloc, path)
            }
        }
    }

    /// The bytes that stand there in the pack of this number, which lies there.
    pub(crate) fn read<R: Files<File = F>>(
        &mut self,
        rt: &R,
        alloc: Global,
        number: usize,
        path: &str,
        span: Span,
    ) -> io::Result<Vec<u8>> {
        let mut pack = self.take(rt, alloc, number, path)?;
        let body = pack.read(alloc, span)?;
        self.packs.insert(number, pack)?;
        Ok(body)
    }
}
