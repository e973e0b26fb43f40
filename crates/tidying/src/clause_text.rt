//! The text of a clause.
ghost use Rattle.std.specs.Prelude.{◌≡◌, ◌++◌, ◌∷◌, [], map, decimal, OnOk};
ghost use Rattle.theory.specs.Texts.{space, literal_text};
ghost use Rattle.lrat_text.specs.Words.{spaced};
ghost use Rattle.tidying.specs.Texts.{clause_text};

use cnf::Lit;
use itoa::Buffer;
use std::alloc::AllocError;

/// Appends a number.
pub(crate) fn append_number(number: u64, text: &mut Vec<u8>) -> Result<(), AllocError>
    ensures { OnOk result (text.new.items ≡ text.old.items ++ decimal number) }
{
    let mut buffer = Buffer::new();
    text.extend_from_slice(buffer.format(number).as_bytes())
}

/// Appends a literal and a space.
fn append_literal(lit: Lit, text: &mut Vec<u8>) -> Result<(), AllocError>
    ensures { OnOk result (text.new.items ≡ text.old.items ++ literal_text lit ++ space ∷ []) }
{
    if !lit.positive() {
        text.push(b'-')?;
    }
    append_number(u64::from(lit.var()), text)?;
    text.push(b' ')?;
    Ok(())
}

/// Appends the line of a clause.
pub(crate) fn append_clause(clause: &[Lit], text: &mut Vec<u8>) -> Result<(), AllocError>
    ensures { OnOk result (text.new.items ≡ text.old.items ++ clause_text clause.now) }
{
    for lit in clause {
        append_literal(*lit, text)?;
    }
    text.extend_from_slice(b"0\n")?;
    Ok(())
}
