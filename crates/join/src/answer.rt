//! The text of an answer: the status line, and the value lines of a satisfiable formula.
ghost use Rattle.std.specs.Prelude.{◌≡◌, ◌≤◌, ◌+◌, ◌<◌, ◌^◌, ◌++◌, ◌∷◌, [], length, IfOk, OnOk, Some, codes};
ghost use Rattle.std.specs.Option.{option_map, ForSome};
ghost use Rattle.theory.specs.Texts.{lf, answer_text, value_lines, clause_words, assigned_literals};
ghost use Rattle.join.specs.Lines.{piece, pieces, width_behind};
ghost use Rattle.join.specs.Values.{limit_text, values_text};

use cnf::{Formula, Lit};
use itoa::Buffer;
use std::alloc::{AllocError, Global};

/// The most bytes that a value line has before its LF.
const WIDTH: usize = 78;

/// How the line begins that is said of a model where the time was up.
const AT_LIMIT: &[u8] =
    b"c this model satisfies the formula, and need not be the first: time was up (variable ";

/// A text that ends inside a value line, of which `width` bytes are there.
#[derive(Drop)]
struct ValueLines {
    text: Vec<u8>,
    width: usize,
}

impl ValueLines {
    /// Puts a number behind the line, or on the next one where it doesn't fit.
    fn put(&mut self, sign: &[u8], digits: &[u8]) -> Result<(), AllocError>
        requires { (self.old.width ≤ 78) × (length sign.now + length digits.now ≤ 60) }
        ensures text { OnOk result (self.new.text.items ≡ self.old.text.items ++ piece self.old.width (sign.now ++ digits.now)) }
        ensures width { OnOk result (self.new.width ≡ width_behind self.old.width (sign.now ++ digits.now)) }
    {
        let word = 1 + sign.len() + digits.len();
        if self.width + word > WIDTH {
            self.text.extend_from_slice(b"\nv")?;
            self.width = 1;
        }
        self.text.push(b' ')?;
        self.text.extend_from_slice(sign)?;
        self.text.extend_from_slice(digits)?;
        self.width += word;
        Ok(())
    }

    /// Puts the literals of the variables 1, 2 and so on.
    fn put_values(&mut self, values: &[bool]) -> Result<(), AllocError>
        requires { (self.old.width ≤ 78) × (length values.now < 2 ^ 32) }
        ensures text { OnOk result (self.new.text.items ++ pieces self.new.width (clause_words [])
            ≡ self.old.text.items ++ pieces self.old.width (clause_words (assigned_literals 1 values.now))) }
        ensures width { OnOk result (self.new.width ≤ 78) }
    {
        let mut buffer = Buffer::new();
        for (index, value) in values.iter().enumerate() {
            let sign: &[u8] = if *value { b"" } else { b"-" };
            self.put(sign, buffer.format(index + 1).as_bytes())?;
        }
        Ok(())
    }

    /// Puts these literals.
    fn put_literals(&mut self, lits: &[Lit]) -> Result<(), AllocError>
        requires { self.old.width ≤ 78 }
        ensures text { OnOk result (self.new.text.items ++ pieces self.new.width (clause_words [])
            ≡ self.old.text.items ++ pieces self.old.width (clause_words lits.now)) }
        ensures width { OnOk result (self.new.width ≤ 78) }
    {
        let mut buffer = Buffer::new();
        for lit in lits {
            let lit = *lit;
            let sign: &[u8] = if lit.positive() { b"" } else { b"-" };
            self.put(sign, buffer.format(lit.var()).as_bytes())?;
        }
        Ok(())
    }

    /// Puts the 0 that ends the values, and ends the line.
    fn end(&mut self) -> Result<(), AllocError>
        requires { self.old.width ≤ 78 }
        ensures { OnOk result (self.new.text.items ≡ self.old.text.items ++ pieces self.old.width (clause_words [])) }
    {
        self.put(b"", b"0")?;
        self.text.push(b'\n')?;
        Ok(())
    }
}

/// Literals as value lines of at most 78 bytes, of which the last one ends with 0. It fails only where
/// a request for memory is refused.
pub fn value_lines(alloc: Global, lits: &[Lit]) -> Result<Vec<u8>, AllocError>
    ensures { IfOk result (λ v. v.items ≡ value_lines (codes "v") (clause_words lits.now)) }
{
    let mut lines = ValueLines {
        text: Vec::from_slice(alloc, b"v")?,
        width: 1,
    };
    lines.put_literals(lits)?;
    lines.end()?;
    Ok(lines.text)
}

/// The truth values of the variables 1, 2 and so on as value lines, behind a text.
fn with_values(mut text: Vec<u8>, values: &[bool]) -> Result<Vec<u8>, AllocError>
    requires { length values.now < 2 ^ 32 }
    ensures { IfOk result (λ v. v.items ≡ text.items ++ values_text values.now) }
{
    text.push(b'v')?;
    let mut lines = ValueLines { text, width: 1 };
    lines.put_values(values)?;
    lines.end()?;
    Ok(lines.text)
}

/// The value lines of a model. It fails only where a request for memory is refused.
pub fn value_bytes(alloc: Global, formula: &Formula, values: &[bool]) -> Result<Vec<u8>, AllocError>
    requires { length values.now ≡ formula.now.vars }
    ensures { IfOk result (λ v. v.items ≡ values_text values.now) }
{
    let _vars = formula.vars(); // it ensures that there are few values
    with_values(Vec::new(alloc), values)
}

/// What is said of a model whose first variables, so many, have the first model's values, where the
/// time was up before all had; then its value lines. It fails only where a request for memory is
/// refused.
pub fn bytes_at_limit(
    alloc: Global,
    formula: &Formula,
    values: &[bool],
    settled: u32,
) -> Result<Vec<u8>, AllocError>
    requires { length values.now ≡ formula.now.vars }
    ensures { IfOk result (λ v. v.items ≡ limit_text settled formula.now.vars ++ values_text values.now) }
{
    let mut buffer = Buffer::new();
    let mut text = Vec::from_slice(alloc, AT_LIMIT)?;
    text.extend_from_slice(buffer.format(settled).as_bytes())?;
    text.extend_from_slice(b" of ")?;
    text.extend_from_slice(buffer.format(formula.vars()).as_bytes())?;
    text.extend_from_slice(b" is settled)\n")?;
    with_values(text, values)
}

/// The text of the answer: `s SATISFIABLE` and the truth values of the variables 1, 2 and so on, in
/// lines of at most 78 bytes, or `s UNSATISFIABLE`. It fails only where a request for memory is
/// refused.
pub fn answer_bytes(
    alloc: Global,
    formula: &Formula,
    values: Option<&[bool]>,
) -> Result<Vec<u8>, AllocError>
    requires { ForSome values (λ v. length v.now ≡ formula.now.vars) }
    ensures { IfOk result (λ v. v.items ≡ answer_text (option_map (λ v. v.now) values.entry)) }
{
    match values {
        None => Vec::from_slice(alloc, b"s UNSATISFIABLE\n"),
        Some(values) => {
            // The call says that a formula has few variables, and so that there are few values.
            let _vars = formula.vars();
            with_values(Vec::from_slice(alloc, b"s SATISFIABLE\n")?, values)
        }
    }
}
