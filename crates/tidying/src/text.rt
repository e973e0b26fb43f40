//! The text of a formula without what repeats.
ghost use Rattle.std.specs.Prelude.{◌≡◌, ◌++◌, map, length, IfOk, OnOk};
ghost use Rattle.tidying.specs.Tidied.{tidied};
ghost use Rattle.tidying.specs.Texts.{formula_text, header_text, clauses_text};

use crate::clause_text::{append_clause, append_number};
use crate::literals::Distinct;
use cnf::Formula;
use std::alloc::{AllocError, Global};

/// The text of a formula, its header apart.
#[derive(Drop)]
pub struct TidyText {
    pub header: Vec<u8>,
    pub clauses: Vec<u8>,
}

/// The lines of clauses, and how many they are.
#[derive(Drop)]
struct Lines {
    count: u64,
    text: Vec<u8>,
}

/// The lines of a formula's clauses, each literal once, without those that have both signs of a
/// variable.
fn lines_of(alloc: Global, formula: &Formula) -> Result<Lines, AllocError>
    ensures text { IfOk result (λ l. l.text.items ≡ clauses_text (tidied formula.now).clauses) }
    ensures count { IfOk result (λ l. l.count ≡ length (tidied formula.now).clauses) }
{
    let mut distinct = Distinct::over(alloc, formula.vars())?;
    let mut lines = Lines {
        count: 0,
        text: Vec::new(alloc),
    };
    for place in 0..formula.clause_count() {
        let is_open = !distinct.take(formula.clause(place))?;
        if is_open {
            append_clause(distinct.literals(), &mut lines.text)?;
            lines.count += 1;
        }
    }
    Ok(lines)
}

/// The header of a formula with so many variables and clauses.
fn header_of(alloc: Global, vars: u32, clauses: u64) -> Result<Vec<u8>, AllocError>
    ensures { IfOk result (λ text. text.items ≡ header_text vars clauses) }
{
    let mut text = Vec::from_slice(alloc, b"p cnf ")?;
    append_number(u64::from(vars), &mut text)?;
    text.push(b' ')?;
    append_number(clauses, &mut text)?;
    text.push(b'\n')?;
    Ok(text)
}

/// The text of a formula, each literal of a clause once, without the clauses that have both signs of
/// a variable. It takes memory by the text.
pub fn tidy_text(alloc: Global, formula: &Formula) -> Result<TidyText, AllocError>
    ensures { IfOk result (λ t. t.header.items ++ t.clauses.items ≡ formula_text (tidied formula.now)) }
{
    let lines = lines_of(alloc, formula)?;
    Ok(TidyText {
        header: header_of(alloc, formula.vars(), lines.count)?,
        clauses: lines.text,
    })
}
