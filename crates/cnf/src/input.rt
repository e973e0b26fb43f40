//! A formula from a reader.
ghost use Rattle.std.specs.Prelude.{◌≡◌, ◌+◌, ◌<◌, ◌≤◌, ◌⊎◌, List, ◌++◌, length, take, vec_len, true, false, Ok, Err, IfOk, IfErr, IfSome, MatchResult};
ghost use Rattle.std.specs.Io.KnownBytes.{Consumes};
ghost use Rattle.theory.specs.Reading.{standard, max_bytes};
ghost use Rattle.cnf.specs.Faults.{IsReadOf};
ghost use Rattle.cnf.specs.Input.{IsReadFault, ReadsOn};
ghost use Rattle.cnf.specs.Limits.{limits_of};

use crate::fault::ReadFault;
use crate::formula::Formula;
use crate::limits::Limits;
use crate::read::read_formula_within;
use std::alloc::Global;
use std::io::Read;

/// How many bytes a read is given room for.
const CHUNK: usize = 65_536;

/// Room for bytes.
fn zeros(alloc: Global, count: usize) -> Result<Vec<u8>, ReadFault>
    ensures { MatchResult result (λ bytes. vec_len bytes ≡ count) IsReadFault }
{
    match vec![in alloc; 0u8; count] {
        Ok(bytes) => Ok(bytes),
        Err(_) => Err(ReadFault::NoMemory),
    }
}

/// One read into `chunk`, which then stands behind `text`. Whether it gave bytes.
fn read_chunk<R: Read>(
    input: &mut R,
    chunk: &mut [u8],
    text: &mut Vec<u8>,
) -> Result<bool, ReadFault>
    requires { 0 < length chunk.old }
    ensures { MatchResult result
        (λ more. ReadsOn (R.remaining input.old) (R.remaining input.new) text.old.items text.new.items (length chunk.old) more)
        IsReadFault }
{
    match input.read(chunk) {
        Ok(0) => Ok(false),
        Ok(count) => match text.extend_from_slice(&chunk[..count]) {
            Ok(()) => Ok(true),
            Err(_) => Err(ReadFault::NoMemory),
        },
        Err(_) => Err(ReadFault::ReadFailed),
    }
}

/// The bytes of a reader, `most` of them at most: it reads until a read gives no bytes, until an
/// error, or until so many are there. Any error of the reader is `ReadFailed`, and no read is tried
/// again; where memory is refused, the answer is `NoMemory`, and what was read is let go. What
/// comes behind the bytes is left to the reader.
pub fn read_bytes<R: Read>(alloc: Global, input: &mut R, most: usize) -> Result<Vec<u8>, ReadFault>
    ensures bytes { MatchResult result
        (λ text. IfSome (R.remaining input.old) (λ bytes. text.items ≡ take most bytes))
        IsReadFault }
    ensures taken { IfOk result (λ text. Consumes (R.remaining input.old) (R.remaining input.new) text.items) }
{
    let mut text = Vec::new(alloc);
    let mut chunk = zeros(alloc, CHUNK)?;
    while text.len() < most {
        let left = CHUNK.min(most - text.len());
        let room = &mut chunk[..left];
        if !read_chunk(input, room, &mut text)? {
            break;
        }
    }
    Ok(text)
}

/// The formula of a reader's DIMACS text. It reads until a read gives no bytes, until an error, or
/// until 67,108,865 bytes are there. Any error of the reader is `ReadFailed`, and no read is tried
/// again; otherwise the answer is that of `read_formula` on the bytes read.
pub fn read_from<R: Read + Drop>(alloc: Global, input: R) -> Result<Formula, ReadFault>
    ensures { (result ≡ Err ReadFault.ReadFailed) ⊎ IsReadOf standard (R.remaining input) result }
{
    read_from_within(alloc, input, Limits::Standard)
}

/// The same within these limits: it reads until one byte more than they allow is there.
pub fn read_from_within<R: Read + Drop>(
    alloc: Global,
    mut input: R,
    limits: Limits,
) -> Result<Formula, ReadFault>
    ensures { (result ≡ Err ReadFault.ReadFailed) ⊎ IsReadOf (limits_of limits) (R.remaining input) result }
{
    let text = read_bytes(alloc, &mut input, limits.bytes() + 1)?;
    read_formula_within(alloc, &text, limits)
}
