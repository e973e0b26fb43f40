//! Resolution asymmetric tautologies: the candidates of an addition, which are the clauses that
//! have its negated pivot, and the groups of hints for them.
ghost use Rattle.std.specs.Prelude.{◌≡◌, ℕ, List, [], ◌∷◌, true, false, None, Some, IfOk, OnOk, MatchOption, if◌then◌else◌, length, nat_eq, slice_get};
ghost use Rattle.std.specs.HashSet.{contains};
ghost use Rattle.theory.specs.Literals.{has};
ghost use Rattle.theory.specs.Truth.{IsOver};
ghost use Rattle.theory.specs.Checking.{clause_of, is_closed, are_dealt_with, group_fault, groups_fault, rat_fault};
ghost use Rattle.lrat.specs.CheckFaults.{faults_of};
ghost use Rattle.lrat.specs.Held.{Extends};
ghost use Rattle.lrat.specs.Indexed.{IsIndexed};
ghost use Rattle.lrat.specs.Slots.{Slot, there};
ghost use Rattle.lrat.specs.Named.{IsNamed, HasCandidates, IsDealtWith, LeavesNamed};

use crate::assume::assume;
use crate::check_fault::Fault;
use crate::clauses::Clauses;
use crate::held::Held;
use crate::hints::{Taken, take_hints};
use crate::occurrences::Occurrences;
use cnf::Lit;
use lrat_text::Group;
use std::alloc::{AllocError, Global};
use std::collections::HashSet;

/// Whether a clause has a literal.
fn has(clause: &[Lit], lit: Lit) -> bool
    ensures { result ≡ has clause.now lit }
{
    for other in clause {
        if lit.same(other) {
            return true;
        }
    }
    false
}

/// Whether a candidate is closed. What is held true stays.
fn is_closed(held: &mut Held, clause: &[Lit], pivot: Lit) -> Result<bool, AllocError>
    requires over { IsOver held.old.vars clause.now }
    requires pivot { has clause.now pivot ≡ true }
    ensures closed { IfOk result (λ b. b ≡ is_closed held.old.literals pivot clause.now) }
    ensures kept { OnOk result (held.new.literals ≡ held.old.literals) }
    ensures vars { held.new.vars ≡ held.old.vars }
{
    let mark = held.len();
    let closed = assume(held, clause, pivot)?;
    held.go_back(mark);
    Ok(closed)
}

/// Whether the clause in the slot at a place, where it is there and is a candidate, is closed or
/// among those named.
fn is_dealt_with(
    held: &mut Held,
    clauses: &Clauses,
    place: usize,
    pivot: Lit,
    named: &HashSet<u64>,
) -> Result<bool, AllocError>
    requires { clauses.now.vars ≡ held.old.vars }
    ensures yes { (L : List ℕ) → IsNamed (contains nat_eq named.now) L → IfOk result (λ b. b ≡ true →
        (s : Slot) → slice_get clauses.now.slots place ≡ Some s → s.is_there ≡ true → IsDealtWith held.old.literals pivot L s) }
    ensures no { (L : List ℕ) → IsNamed (contains nat_eq named.now) L → IfOk result (λ b. b ≡ false →
        are_dealt_with (there clauses.now) held.old.literals pivot L ≡ false) }
    ensures kept { OnOk result (held.new.literals ≡ held.old.literals) }
    ensures vars { held.new.vars ≡ held.old.vars }
{
    if place >= clauses.len() {
        return Ok(true);
    }
    let Some((id, clause)) = clauses.at(place) else {
        return Ok(true);
    };
    if !has(clause, pivot) || named.contains(&id) {
        return Ok(true);
    }
    is_closed(held, clause, pivot)
}

/// Whether each candidate is closed or among those named. It takes time by the literals of the
/// clauses on the pivot's chain.
fn are_dealt_with(
    held: &mut Held,
    clauses: &Clauses,
    occurrences: &Occurrences,
    pivot: Lit,
    named: &HashSet<u64>,
) -> Result<bool, AllocError>
    requires vars { clauses.now.vars ≡ held.old.vars }
    requires indexed { IsIndexed clauses.now.slots occurrences.now }
    requires all { occurrences.now.entered ≡ length clauses.now.slots }
    ensures dealt_with { (L : List ℕ) → IsNamed (contains nat_eq named.now) L →
        IfOk result (λ b. b ≡ are_dealt_with (there clauses.now) held.old.literals pivot L) }
    ensures kept { OnOk result (held.new.literals ≡ held.old.literals) }
    ensures vars { held.new.vars ≡ held.old.vars }
{
    let mut link = occurrences.first(pivot);
    while link > 0 {
        let (place, next) = occurrences.at(link);
        if !is_dealt_with(held, clauses, place, pivot, named)? {
            return Ok(false);
        }
        link = next;
    }
    Ok(true)
}

/// Whether each candidate is closed or among those named, which are so many. Where no more clauses
/// have the pivot, these are all of them, and no others are looked for.
fn all_are_dealt_with(
    held: &mut Held,
    clauses: &Clauses,
    occurrences: &mut Occurrences,
    pivot: Lit,
    named: &HashSet<u64>,
    count: usize,
) -> Result<bool, AllocError>
    requires vars { clauses.now.vars ≡ held.old.vars }
    requires indexed { IsIndexed clauses.now.slots occurrences.old }
    requires named { HasCandidates (there clauses.now) pivot (contains nat_eq named.now) count }
    ensures indexed { IsIndexed clauses.now.slots occurrences.new }
    ensures dealt_with { (L : List ℕ) → IsNamed (contains nat_eq named.now) L →
        IfOk result (λ b. b ≡ are_dealt_with (there clauses.now) held.old.literals pivot L) }
    ensures vars { held.new.vars ≡ held.old.vars }
{
    let most = occurrences.count(clauses, pivot)?;
    if most <= count {
        return Ok(true);
    }
    occurrences.enter_all(clauses)?;
    occurrences.sweep(pivot, clauses);
    are_dealt_with(held, clauses, occurrences, pivot, named)
}

/// The fault of a group, where earlier groups named others. What is held true has its candidate's
/// negations and the units of its hints then.
fn group_fault(
    held: &mut Held,
    clauses: &Clauses,
    pivot: Lit,
    named: &HashSet<u64>,
    group: &Group,
) -> Result<Option<Fault>, AllocError>
    requires { clauses.now.vars ≡ held.old.vars }
    ensures fault { (L : List ℕ) → IsNamed (contains nat_eq named.now) L → let K = there clauses.now in
        IfOk result (λ o. faults_of o ≡ group_fault K held.old.literals pivot L group.now (clause_of K group.now.candidate)) }
    ensures extends { Extends held.old.literals held.new.literals }
    ensures vars { held.new.vars ≡ held.old.vars }
{
    let Some(clause) = clauses.get(group.candidate()) else {
        return Ok(Some(Fault::NoSuchClause(group.candidate())));
    };
    if !has(clause, pivot) || named.contains(&group.candidate()) {
        return Ok(Some(Fault::BadCandidate));
    }
    if assume(held, clause, pivot)? {
        return Ok(if group.hints().is_empty() {
            None
        } else {
            Some(Fault::BadCandidate)
        });
    }
    Ok(match take_hints(held, clauses, group.hints())? {
        Taken::Conflict => None,
        Taken::Open => Some(Fault::NoConflict),
        Taken::Fails(fault) => Some(fault),
    })
}

/// The fault of the first group at fault, each taken from what is held true before the first. With
/// none, `named` has the candidates of all.
fn first_fault(
    held: &mut Held,
    clauses: &Clauses,
    pivot: Lit,
    named: &mut HashSet<u64>,
    groups: &[Group],
) -> Result<Option<Fault>, AllocError>
    requires vars { clauses.now.vars ≡ held.old.vars }
    requires none { IsNamed (contains nat_eq named.old) [] }
    ensures fault { IfOk result (λ o. LeavesNamed (there clauses.now) held.old.literals pivot groups.now (contains nat_eq named.new) o) }
    ensures named { IfOk result (λ o. o ≡ None → HasCandidates (there clauses.now) pivot (contains nat_eq named.new) (length groups.now)) }
    ensures kept { IfOk result (λ o. o ≡ None → held.new.literals ≡ held.old.literals) }
    ensures vars { held.new.vars ≡ held.old.vars }
{
    let mark = held.len();
    for group in groups {
        let fault = group_fault(held, clauses, pivot, named, group)?;
        if fault.is_some() {
            return Ok(fault);
        }
        held.go_back(mark);
        named.insert(group.candidate())?;
    }
    Ok(None)
}

/// The fault of an addition whose hints end without a conflict.
pub(crate) fn rat_fault(
    alloc: Global,
    held: &mut Held,
    clauses: &Clauses,
    occurrences: &mut Occurrences,
    clause: &[Lit],
    groups: &[Group],
) -> Result<Option<Fault>, AllocError>
    requires vars { clauses.now.vars ≡ held.old.vars }
    requires indexed { IsIndexed clauses.now.slots occurrences.old }
    ensures indexed { IsIndexed clauses.now.slots occurrences.new }
    ensures fault { IfOk result (λ o. faults_of o ≡ rat_fault (there clauses.now) held.old.literals clause.now groups.now) }
    ensures vars { held.new.vars ≡ held.old.vars }
{
    if clause.is_empty() {
        return Ok(Some(Fault::NoConflict));
    }
    let pivot = clause[0].negated();
    let mut named = HashSet::new(alloc);
    let fault = first_fault(held, clauses, pivot, &mut named, groups)?;
    if fault.is_some() {
        return Ok(fault);
    }
    if all_are_dealt_with(held, clauses, occurrences, pivot, &named, groups.len())? {
        Ok(None)
    } else {
        Ok(Some(Fault::MissingCandidate))
    }
}
