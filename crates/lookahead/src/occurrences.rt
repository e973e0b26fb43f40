//! In how many clauses each literal stands.
ghost use Rattle.std.specs.Prelude.{◌≡◌, ◌<◌, ◌≤◌, ◌+◌, ◌*◌, ◌^◌, ◌&&◌, not, ℕ, List, [], take, length, All, IfOk, vec_len, if◌then◌else◌};
ghost use Rattle.theory.specs.Literals.{Literal, Clause, has, has_both_signs};
ghost use Rattle.theory.specs.Truth.{IsOver};
ghost use Rattle.cnf.specs.Lits.{code};
ghost use Rattle.lookahead.specs.Tables.{at, AreStamped, AreOccurrences};

use cnf::Lit;
use kernel::SearchKernel;
use std::alloc::{AllocError, Global};

/// A kernel has room for fewer clauses.
const MAX_CLAUSES: u64 = 1 << 31;

/// Notes at each literal of a clause that the clause of this number has it.
fn stamp(stamps: &mut [u32], vars: u32, clause: &[Lit], number: u32)
    requires over { IsOver vars clause.now }
    requires room { length stamps.old ≡ 2 * vars + 2 }
    requires before { (i : ℕ) → at stamps.old i < number }
    ensures stamped { AreStamped vars number clause.now stamps.new }
    ensures room { length stamps.new ≡ length stamps.old }
{
    for lit in clause {
        stamps[lit.code()] = number;
    }
}

/// Whether a clause that is noted has both literals of some variable.
fn has_both_signs(stamps: &[u32], vars: u32, clause: &[Lit], number: u32) -> bool
    requires over { IsOver vars clause.now }
    requires room { length stamps.now ≡ 2 * vars + 2 }
    requires stamped { AreStamped vars number clause.now stamps.now }
    ensures { result ≡ has_both_signs clause.now }
{
    for lit in clause {
        if stamps[lit.negated().code()] == number {
            return true;
        }
    }
    false
}

/// Counts a clause that is noted, once for each literal that it has, and takes the notes away.
fn count(counts: &mut [u32], stamps: &mut [u32], vars: u32, clause: &[Lit], number: u32)
    requires over { IsOver vars clause.now }
    requires room { (length counts.old ≡ 2 * vars + 2) × (length stamps.old ≡ 2 * vars + 2) }
    requires stamped { AreStamped vars number clause.now stamps.old }
    requires number { 1 ≤ number }
    requires few { (l : Literal) → l.var ≤ vars → at counts.old (code l) < number }
    ensures counted { (l : Literal) → l.var ≤ vars → at counts.new (code l) ≡ at counts.old (code l) + (if has clause.now l then 1 else 0) }
    ensures within { (i : ℕ) → at stamps.new i ≤ number }
    ensures room { (length counts.new ≡ length counts.old) × (length stamps.new ≡ length stamps.old) }
{
    for lit in clause {
        let code = lit.code();
        if stamps[code] == number {
            counts[code] += 1;
            stamps[code] = 0;
        }
    }
}

/// Counts a clause for each literal that it has, unless it has both literals of some variable.
fn count_clause(counts: &mut [u32], stamps: &mut [u32], vars: u32, clause: &[Lit], number: u32)
    requires over { IsOver vars clause.now }
    requires room { (length counts.old ≡ 2 * vars + 2) × (length stamps.old ≡ 2 * vars + 2) }
    requires before { (i : ℕ) → at stamps.old i < number }
    requires few { (l : Literal) → l.var ≤ vars → at counts.old (code l) < number }
    ensures counted { (l : Literal) → l.var ≤ vars →
        at counts.new (code l) ≡ at counts.old (code l) + (if has clause.now l && not (has_both_signs clause.now) then 1 else 0) }
    ensures within { (i : ℕ) → at stamps.new i ≤ number }
    ensures room { (length counts.new ≡ length counts.old) × (length stamps.new ≡ length stamps.old) }
{
    stamp(stamps, vars, clause, number);
    if !has_both_signs(stamps, vars, clause, number) {
        count(counts, stamps, vars, clause, number);
    }
}

/// Counts so many first clauses.
fn count_all(counts: &mut [u32], stamps: &mut [u32], kernel: &SearchKernel, first: u32)
    requires first { (first ≤ length kernel.now.clauses) × (kernel.now.vars < 2 ^ 31) }
    requires room { (length counts.old ≡ 2 * kernel.now.vars + 2) × (length stamps.old ≡ 2 * kernel.now.vars + 2) }
    requires none { ((i : ℕ) → at counts.old i ≡ 0) × ((i : ℕ) → at stamps.old i ≡ 0) }
    ensures occurrences { AreOccurrences kernel.now.vars (take first kernel.now.clauses) counts.new }
    ensures room { (length counts.new ≡ length counts.old) × (length stamps.new ≡ length stamps.old) }
{
    let vars = kernel.vars();
    let _trail = kernel.trail(); // it ensures that the clauses are over the variables
    for before in 0..first {
        let number = before + 1;
        let clause = kernel.arranged(u64::from(number));
        count_clause(counts, stamps, vars, clause, number);
    }
}

/// In how many of the kernel's first clauses each literal stands, by its code; a clause with both
/// literals of a variable doesn't count. It takes time by their literals, and 16 bytes a variable
/// while it counts. More clauses than a kernel has room for count as want of memory.
pub(crate) fn occurrences(alloc: Global, kernel: &SearchKernel) -> Result<Vec<u32>, AllocError>
    requires { kernel.now.vars < 2 ^ 31 }
    ensures occurrences { IfOk result (λ c. AreOccurrences kernel.now.vars (take kernel.now.first kernel.now.clauses) c.items) }
    ensures few { IfOk result (λ c. (l : Literal) → l.var ≤ kernel.now.vars → at c.items (code l) < 2 ^ 31) }
    ensures room { IfOk result (λ c. vec_len c ≡ 2 * kernel.now.vars + 2) }
{
    let first = kernel.first_count();
    if first >= MAX_CLAUSES {
        return Err(AllocError);
    }
    let room = 2 * kernel.vars() as usize + 2;
    let mut counts = vec![in alloc; 0; room]?;
    let mut stamps = vec![in alloc; 0; room]?;
    count_all(&mut counts, &mut stamps, kernel, first as u32);
    Ok(counts)
}
