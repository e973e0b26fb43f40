//! How a literal or a hint is written behind the one before it: by a number from 1 on, small where
//! the two are near. The number of a forgotten clause is written as a hint is.
ghost use Rattle.std.specs.Prelude.{◌≡◌, ◌<◌, ◌≤◌, ◌^◌};
ghost use Rattle.cnf.specs.Lits.{code};
ghost use Rattle.lines.specs.Rows.{code_behind, literal_at, hint_behind};

use cnf::Lit;

/// No hint is greater: it is the greatest number of a clause in a proof.
pub(crate) const MAX_HINT: u64 = 9_223_372_036_854_775_807;

/// The code of a literal, as a row has it.
pub(crate) fn code(lit: Lit) -> u32
    ensures code { result ≡ code lit }
    ensures some { 1 ≤ lit.var }
{
    let _var = lit.var(); // it bounds the code
    lit.code() as u32
}

/// The literal of a code.
pub(crate) fn literal_at(code: u32) -> Lit
    ensures { result ≡ literal_at code }
{
    Lit::of((code / 2).max(1), code % 2 == 1)
}

/// The number by which a code is written. Codes mostly rise.
pub(crate) fn code_number(last: u32, code: u32) -> u64
    ensures some { 1 ≤ result }
    ensures small { result ≤ 2 ^ 32 }
    ensures code { code_behind last result ≡ code }
{
    if last < code {
        u64::from(code - last)
    } else {
        (1 << 32) - u64::from(last - code)
    }
}

/// The code that a number stands for.
pub(crate) fn code_behind(last: u32, number: u64) -> u32
    ensures { result ≡ code_behind last number }
{
    ((number % (1 << 32) + u64::from(last)) % (1 << 32)) as u32
}

/// The number by which a hint is written.
pub(crate) fn hint_number(last: u64, hint: u64) -> u64
    requires { (last < 2 ^ 63) × (hint < 2 ^ 63) }
    ensures some { 1 ≤ result }
    ensures hint { hint_behind last result ≡ hint }
{
    if last < hint {
        2 * (hint - last)
    } else {
        2 * (last - hint) + 1
    }
}

/// The hint that a number stands for.
pub(crate) fn hint_behind(last: u64, number: u64) -> u64
    ensures { result ≡ hint_behind last number }
{
    if number % 2 == 0 {
        last.wrapping_add(number / 2)
    } else {
        last.saturating_sub(number / 2)
    }
}
