//! Variables as they are typed behind `--project`.
ghost use Rattle.std.specs.Prelude.{◌≡◌, All, IfOk, IfSome};
ghost use Rattle.theory.specs.Literals.{IsVariable};
ghost use Rattle.theory.specs.Trails.{variables};

use std::alloc::{AllocError, Global};

/// Why there is no projection.
#[derive(Clone, Copy, Debug, PartialEq, Eq)]
pub(crate) enum ProjectionFault<'a> {
    /// This word names no variable of the formula.
    Unknown(&'a str),
    NoMemory,
}

/// The variables 1 to `vars`.
pub(crate) fn all_variables(alloc: Global, vars: u32) -> Result<Vec<u32>, AllocError>
    ensures items { IfOk result (λ v. v.items ≡ variables vars) }
    ensures over { IfOk result (λ v. All (IsVariable vars) v.items) }
{
    let mut all = Vec::with_capacity(alloc, vars as usize)?;
    for index in 0..vars {
        all.push(index + 1)?;
    }
    Ok(all)
}

/// The variable of 1 to `vars` that a word names, in digits alone.
fn variable_of(word: &str, vars: u32) -> Option<u32>
    ensures { IfSome result (IsVariable vars) }
{
    if !word.bytes().all(|byte| byte.is_ascii_digit()) {
        return None;
    }
    match word.parse::<u32>() {
        Ok(var) if var >= 1 && var <= vars => Some(var),
        _ => None,
    }
}

/// The variables of 1 to `vars` that the words name, with commas between them; an empty text names
/// none.
pub(crate) fn variables_in<'a>(
    alloc: Global,
    words: &'a str,
    vars: u32,
) -> Result<Vec<u32>, ProjectionFault<'a>>
    ensures { IfOk result (λ v. All (IsVariable vars) v.items) }
{
    let mut named = Vec::new(alloc);
    if words.is_empty() {
        return Ok(named);
    }
    for word in words.split(',') {
        match variable_of(word, vars) {
            Some(var) => {
                if named.push(var).is_err() {
                    return Err(ProjectionFault::NoMemory);
                }
            }
            None => return Err(ProjectionFault::Unknown(word)),
        }
    }
    Ok(named)
}
