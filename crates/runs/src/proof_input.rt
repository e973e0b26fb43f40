//! A proof, as a reader gives it to the check piece by piece.
ghost use Rattle.std.specs.Prelude.{◌≡◌, ◌+◌, ◌<◌, ◌≤◌, length, vec_len, MatchResult, OnOk};
ghost use Rattle.theory.specs.Reading.{large};
ghost use Rattle.theory.specs.ProofReading.{max_proof_bytes};
ghost use Rattle.cnf.specs.Limits.{limits_of};
ghost use Rattle.lrat.specs.Running.{IsRunning, stream_of, vars_of};
ghost use Rattle.runs.specs.Streamed.{FeedsChunk, FeedsAll, IsStop};

use crate::fault::RunFault;
use cnf::Limits;
use lrat::ProofStream;
use std::alloc::Global;
use std::io::{ErrorKind, Read};

/// How many bytes a read is given room for. Larger pieces made the check no faster.
const CHUNK: usize = 65_536;

/// Room for the bytes of a read.
fn chunk(alloc: Global) -> Result<Vec<u8>, RunFault>
    ensures { MatchResult result (λ bytes. vec_len bytes ≡ CHUNK) IsStop }
{
    match vec![in alloc; 0u8; CHUNK] {
        Ok(bytes) => Ok(bytes),
        Err(_) => Err(RunFault::NoMemory),
    }
}

/// Feeds the check with what one read into `chunk` gives, and says how many bytes these are.
fn feed_chunk<P: Read>(
    proof: &mut P,
    chunk: &mut [u8],
    stream: &mut ProofStream,
) -> Result<usize, RunFault>
    requires room { 0 < length chunk.old }
    requires running { IsRunning stream.old }
    requires few { (stream_of stream.old).seen + length chunk.old ≤ max_proof_bytes large + 1 }
    ensures fed { MatchResult result
        (λ count. FeedsChunk (P.remaining proof.old) (P.remaining proof.new) (vars_of stream.old) (stream_of stream.old) (stream_of stream.new) (length chunk.old) count)
        IsStop }
    ensures running { OnOk result (IsRunning stream.new) }
    ensures vars { OnOk result (vars_of stream.new ≡ vars_of stream.old) }
{
    match proof.read(chunk) {
        Ok(count) => match stream.feed(&chunk[..count]) {
            Ok(()) => Ok(count),
            Err(_) => Err(RunFault::NoMemory),
        },
        Err(error) if error.kind() == ErrorKind::OutOfMemory => Err(RunFault::NoMemory),
        Err(_) => Err(RunFault::ProofReadFailed),
    }
}

/// Feeds the check with a reader's bytes, until a read gives none, until an error, or until there
/// is one byte more than the limits allow. An error of the reader is `ProofReadFailed`, or `NoMemory`
/// where it is for want of memory, and no read is tried again.
pub(crate) fn feed_all<P: Read>(
    alloc: Global,
    proof: &mut P,
    stream: &mut ProofStream,
    limits: Limits,
) -> Result<(), RunFault>
    requires running { IsRunning stream.old }
    requires first { (stream_of stream.old).seen ≡ 0 }
    ensures { MatchResult result
        (λ _. FeedsAll (limits_of limits) (P.remaining proof.old) (vars_of stream.old) (stream_of stream.old) (stream_of stream.new))
        IsStop }
{
    let mut chunk = chunk(alloc)?;
    let most = limits.proof_bytes() as usize + 1;
    let mut read = 0;
    while read < most {
        let left = CHUNK.min(most - read);
        let count = feed_chunk(proof, &mut chunk[..left], stream)?;
        if count == 0 {
            break;
        }
        read += count;
    }
    Ok(())
}
