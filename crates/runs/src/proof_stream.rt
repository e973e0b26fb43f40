//! The text of a proof whose nodes come one after the other, as it is written.
ghost use Rattle.std.specs.Prelude.{◌≡◌, [], ◌++◌, ◌⊎◌, length, IfOk, OnOk, MatchResult};
ghost use Rattle.std.specs.Io.KnownBytes.{Appends};
ghost use Rattle.cdcl.specs.Plans.{search_from, first_units};
ghost use Rattle.theory.specs.Texts.{proof_text};
ghost use Rattle.join.specs.Joining.{before_nodes};
ghost use Rattle.join.specs.Walking.{joined, IsJoining};
ghost use Rattle.runs.specs.Stored.{PutsNext, IsDrained, IsStreamFor, IsStreamed};

use crate::fault::RunFault;
use crate::output::{write_bytes, write_text};
use crate::proof_output::{ENOUGH, put_text};
use cdcl::Search;
use cnf::Formula;
use cubes::{Node, TakesNodes};
use join::Joiner;
use lines::Row;
use std::alloc::{AllocError, Global};
use std::io::Write;

/// Writes the lines of a proof through a buffer, as the nodes of its tree come.
pub(crate) struct ProofStream {
    pub(crate) joiner: Joiner,
    pub(crate) buffer: Vec<u8>,
    // what else ends it is want of memory
    write_failed: bool,
}

// written out, so that proofs of its owners stay short (docs/PROVING.md)
impl Drop for ProofStream {
    fn drop(self) {
        let ProofStream {
            joiner: _,
            buffer: _,
            write_failed: _,
        } = self;
    }
}

/// Puts the next line of the nodes that came into the buffer; it answers whether there was one
/// more.
fn put_next(joiner: &mut Joiner, buffer: &mut Vec<u8>) -> Result<bool, AllocError>
    requires { IsJoining joiner.old }
    ensures puts { IfOk result (λ more. PutsNext (joined joiner.old) (joined joiner.new) buffer.old.items buffer.new.items more) }
    ensures clauses { OnOk result (joiner.new.clauses ≡ joiner.old.clauses) }
    ensures lawful { OnOk result (IsJoining joiner.new) }
{
    if !joiner.next_line()? {
        return Ok(false);
    }
    put_text(joiner.line(), buffer)?;
    Ok(true)
}

impl ProofStream {
    /// Before the first node of the formula's tree by this search. It takes memory by the units that
    /// the search begins with.
    pub(crate) fn begin(
        alloc: Global,
        formula: &Formula,
        search: Search,
    ) -> Result<ProofStream, AllocError>
        ensures stream { IfOk result (IsStreamFor search formula.now) }
        ensures joined { IfOk result (λ s. joined s.joiner ≡ before_nodes (length formula.now.clauses) (first_units search formula.now)) }
        ensures buffer { IfOk result (λ s. s.buffer.items ≡ []) }
    {
        let _vars = formula.vars(); // it ensures what the proof needs of the formula
        let clauses = formula.clause_count() as u64;
        let units = search.units(alloc, formula)?;
        Ok(ProofStream {
            joiner: Joiner::start(alloc, clauses, units)?,
            buffer: Vec::with_capacity(alloc, 2 * ENOUGH)?,
            write_failed: false,
        })
    }

    /// Makes the lines of the nodes that came, and writes what doesn't fit into the buffer. It fails
    /// where a request for memory is refused, or a write fails.
    fn drain<W: Write>(&mut self, writer: &mut W) -> Result<(), AllocError>
        requires { IsJoining self.old.joiner }
        ensures drained { OnOk result (IsDrained (W.contents writer.old) (W.contents writer.new) self.old self.new) }
        ensures lawful { OnOk result (IsJoining self.new.joiner) }
    {
        'lines: while put_next(&mut self.joiner, &mut self.buffer)? {
            if self.buffer.len() >= ENOUGH {
                let fault = RunFault::ProofWriteFailed;
                let Ok(()) = write_bytes(writer, &self.buffer, fault) else {
                    self.write_failed = true;
                    return Err(AllocError);
                };
                self.buffer.clear();
            }
        }
        Ok(())
    }

    /// Why taking a node failed.
    pub(crate) fn fault(&self) -> RunFault
        ensures { (result ≡ RunFault.NoMemory) ⊎ (result ≡ RunFault.ProofWriteFailed) }
    {
        if self.write_failed {
            RunFault::ProofWriteFailed
        } else {
            RunFault::NoMemory
        }
    }

    /// Writes what is left, once all nodes came, and flushes the writer. A write or a flush fails as
    /// in `write_text`.
    pub(crate) fn end<W: Write>(&mut self, writer: &mut W) -> Result<(), RunFault>
        requires { IsJoining self.old.joiner }
        ensures { MatchResult result
            (λ _. Appends (W.contents writer.old) (W.contents writer.new) (self.old.buffer.items ++ proof_text (joined self.old.joiner).steps))
            (λ e. e ≡ RunFault.ProofWriteFailed) }
    {
        match self.drain(writer) {
            Ok(()) => write_text(writer, &self.buffer, RunFault::ProofWriteFailed),
            Err(_) => Err(RunFault::ProofWriteFailed),
        }
    }
}

impl<W: Write> TakesNodes<W> for ProofStream {
    ghost is_for = { λ s search F. IsStreamFor (search_from search) F s };

    ghost takes = { λ first begun nodes last out. IsStreamed (W.contents begun) (W.contents out) first nodes last };

    fn take(&mut self, out: &mut W, _formula: &Formula, node: Node<Row>) -> Result<(), AllocError> {
        self.drain(out)?;
        self.joiner.take(node)?;
        // so that of a leaf no line is kept while the next one is read
        self.drain(out)?;
        Ok(())
    }
}
