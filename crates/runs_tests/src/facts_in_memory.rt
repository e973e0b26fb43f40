//! Facts in memory, each of which is given as often as it is asked for.

use gathering::{CubeTable, KeepsFacts};
use kernel::Cube;
use packs::{Claim, Fact};
use std::alloc::{AllocError, Global};

/// Facts in memory.
#[derive(Drop)]
pub(crate) struct FactsInMemory {
    alloc: Global,
    facts: Vec<Fact>,
    // of each cube, at which places its facts are
    places: CubeTable<usize>,
}

/// The fact once more.
fn copied(alloc: Global, fact: &Fact) -> Result<Fact, AllocError> {
    let claim = match &fact.claim {
        Claim::Split(var) => Claim::Split(*var),
        Claim::Refuted(row) => Claim::Refuted(row.lines().rest(alloc)?),
        Claim::Model => Claim::Model,
    };
    Ok(Fact {
        cube: fact.cube.copied()?,
        claim,
    })
}

impl FactsInMemory {
    /// A store of these facts, which may be any.
    pub(crate) fn new(alloc: Global, facts: Vec<Fact>) -> Result<FactsInMemory, AllocError> {
        let mut places = CubeTable::new(alloc);
        for place in 0..facts.len() {
            places.put(facts[place].cube.copied()?, place)?;
        }
        places.sort()?;
        Ok(FactsInMemory {
            alloc,
            facts,
            places,
        })
    }

    fn copied_at(&self, place: Option<&usize>) -> Result<Option<Fact>, AllocError> {
        match place {
            Some(place) if *place < self.facts.len() => {
                Ok(Some(copied(self.alloc, &self.facts[*place])?))
            }
            _ => Ok(None),
        }
    }
}

impl KeepsFacts for FactsInMemory {
    fn count(&self, cube: &Cube) -> usize {
        self.places.count(cube)
    }

    fn fact(&mut self, cube: &Cube, number: usize) -> Result<Option<Fact>, AllocError> {
        self.copied_at(self.places.item(cube, number))
    }

    fn ordered(&self) -> usize {
        self.places.len()
    }

    fn in_order(&mut self, number: usize) -> Result<Option<Fact>, AllocError> {
        self.copied_at(self.places.last_at(number))
    }
}
