//! Whole packs.
ghost use Rattle.std.specs.Prelude.{◌≡◌, ◌<◌, ◌^◌, ◌+◌, ◌++◌, ◌∷◌, [], true, List, All, IfOk, OnOk, MatchOption};
ghost use Rattle.packs.specs.declared.fact.Fact as facts;
ghost use Rattle.packs.specs.Facts.{IsFactOver};
ghost use Rattle.packs.specs.Packs.{IsPackOf, Reads};

use crate::bodies::Bodies;
use crate::fact::Fact;
use crate::reader::FactReader;
use std::alloc::{AllocError, Global};

/// What a pack is read as.
#[derive(Drop)]
pub struct Pack {
    /// The facts that could be read, in their order.
    pub facts: Vec<Fact>,
    /// So many others were passed over, since their bytes are no fact.
    pub passed_over: u64,
    /// Whether the bytes end behind the last fact. If not, it breaks off.
    pub whole: bool,
}

impl Pack {
    /// Puts what the bytes of a fact were read as behind the others.
    fn put(&mut self, fact: Option<Fact>) -> Result<(), AllocError>
        requires { self.old.passed_over < 2 ^ 63 }
        ensures fact { OnOk result (MatchOption fact
            ((self.new.facts.items ≡ self.old.facts.items) × (self.new.passed_over ≡ self.old.passed_over + 1))
            (λ f. (self.new.facts.items ≡ self.old.facts.items ++ f ∷ []) × (self.new.passed_over ≡ self.old.passed_over))) }
    {
        match fact {
            Some(fact) => self.facts.push(fact)?,
            None => self.passed_over += 1,
        }
        Ok(())
    }
}

/// The facts of a pack, over so many variables. The bytes may be any. It takes time and memory by
/// the bytes and the variables, and fails where a request for memory is refused.
pub fn read_pack(alloc: Global, vars: u32, bytes: &[u8]) -> Result<Pack, AllocError>
    ensures reads { IfOk result (λ p. Reads vars bytes.now p.facts.items p.passed_over p.whole) }
    ensures written { (fs : List facts.Fact) → IsPackOf bytes.now fs → All (IsFactOver vars) fs →
        IfOk result (λ p. (p.facts.items ≡ fs) × (p.passed_over ≡ 0) × (p.whole ≡ true)) }
{
    let mut reader = FactReader::open(alloc, vars)?;
    let mut pack = Pack {
        facts: Vec::new(alloc),
        passed_over: 0,
        whole: false,
    };
    let mut bodies = Bodies::of(bytes);
    while let Some(body) = bodies.next() {
        let fact = reader.read(Vec::from_slice(alloc, body)?)?;
        pack.put(fact)?;
    }
    pack.whole = bodies.is_empty();
    Ok(pack)
}
