//! What a trail says of literals, in a table by literal.
ghost use Rattle.std.specs.Prelude.{◌≡◌, ◌≢◌, ◌<◌, ◌≤◌, ◌+◌, ◌*◌, true, false, Some, length, slice_index_or};
ghost use Rattle.theory.specs.Literals.{negated};
ghost use Rattle.cnf.specs.Lits.{code};
ghost use Rattle.trail.specs.Tables.{value_of, with_truths};
ghost use Rattle.trail.specs.declared.truth.Truth.TheVariants.{Unassigned};

use cnf::Lit;

/// What a trail says of a literal.
#[derive(Clone, Copy)]
pub enum Truth {
    Unassigned,
    Satisfied,
    Falsified,
}

impl Truth {
    /// The truth value, and none where there is none.
    pub fn value(self) -> Option<bool>
        ensures { result ≡ value_of self }
    {
        match self {
            Truth::Unassigned => None,
            Truth::Satisfied => Some(true),
            Truth::Falsified => Some(false),
        }
    }

    /// Whether the literal is true.
    pub fn is_satisfied(self) -> bool
        ensures yes { result ≡ true → value_of self ≡ Some true }
        ensures no { result ≡ false → value_of self ≢ Some true }
    {
        match self {
            Truth::Satisfied => true,
            Truth::Unassigned => false,
            Truth::Falsified => false,
        }
    }

    /// Whether the literal is false.
    pub fn is_falsified(self) -> bool
        ensures yes { result ≡ true → value_of self ≡ Some false }
        ensures no { result ≡ false → value_of self ≢ Some false }
    {
        match self {
            Truth::Falsified => true,
            Truth::Unassigned => false,
            Truth::Satisfied => false,
        }
    }
}

/// What is said of a literal in the table of a trail, where each literal's place is its code.
pub fn status_in(truths: &[Truth], lit: Lit) -> Truth
    requires { code lit < length truths.now }
    ensures { result ≡ slice_index_or truths.now (code lit) Unassigned }
{
    truths[lit.code()]
}

/// Writes what is said of a literal, and of its negation.
pub fn put_truths(truths: &mut [Truth], lit: Lit, truth: Truth, opposite: Truth)
    requires inside { code lit < length truths.old }
    requires beside { code (negated lit) < length truths.old }
    ensures { truths.new ≡ with_truths truths.old lit truth opposite }
{
    truths[lit.code()] = truth;
    truths[lit.negated().code()] = opposite;
}
