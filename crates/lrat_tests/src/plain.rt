//! The checker beside a plain one, which searches lists: both answer the same on each proof that
//! comes of a worked one by another byte at one place.
use cnf::{Formula, Lit, read_formula};
use lrat::{Addition, Group, Step, check, read_proof};
use std::alloc::{AllocError, Global};
use std::process::Abort;
use std::test::Fail;
use test_samples::FOUR_UNUSED;

/// A number and its clause.
#[derive(Drop)]
struct Numbered<'a> {
    id: u64,
    clause: &'a [Lit],
}

fn clause_of<'a>(there: &[Numbered<'a>], id: u64) -> Option<&'a [Lit]> {
    for numbered in there {
        if numbered.id == id {
            return Some(numbered.clause);
        }
    }
    None
}

fn has_both_signs(clause: &[Lit]) -> bool {
    for lit in clause {
        if clause.contains(&lit.negated()) {
            return true;
        }
    }
    false
}

fn is_over(vars: u32, clause: &[Lit]) -> bool {
    for lit in clause {
        if lit.var() > vars {
            return false;
        }
    }
    true
}

fn is_closed(held: &[Lit], clause: &[Lit], pivot: Lit) -> bool {
    for lit in clause {
        if *lit != pivot && held.contains(lit) {
            return true;
        }
    }
    has_both_signs(clause)
}

/// Holds the negations of the literals other than the pivot.
fn negate(held: &mut Vec<Lit>, clause: &[Lit], pivot: Option<Lit>) -> Result<(), AllocError> {
    for lit in clause {
        if Some(*lit) != pivot {
            held.push(lit.negated())?;
        }
    }
    Ok(())
}

/// The literal that a hinted clause gives, none where the clause is false; the fault's number where
/// it is neither.
fn unit_of(held: &[Lit], clause: &[Lit]) -> Result<Option<Lit>, u32> {
    let mut unit = None;
    for lit in clause {
        let is_false = held.contains(&lit.negated());
        if held.contains(lit) || !is_false && unit.is_some() && unit != Some(*lit) {
            return Err(24);
        }
        if !is_false {
            unit = Some(*lit);
        }
    }
    Ok(unit)
}

/// The number of the fault of hints, 26 where they end without a conflict.
fn hints_fault(
    held: &mut Vec<Lit>,
    there: &[Numbered],
    hints: &[u64],
) -> Result<Option<u32>, AllocError> {
    let mut fault = Some(26);
    for id in hints {
        if fault.is_none() {
            return Ok(Some(25));
        }
        let Some(clause) = clause_of(there, *id) else {
            return Ok(Some(23));
        };
        match unit_of(held, clause) {
            Ok(Some(lit)) => held.push(lit)?,
            Ok(None) => fault = None,
            Err(number) => return Ok(Some(number)),
        }
    }
    Ok(fault)
}

fn group_fault(
    alloc: Global,
    held: &[Lit],
    there: &[Numbered],
    pivot: Lit,
    named: &[u64],
    group: &Group,
) -> Result<Option<u32>, AllocError> {
    let Some(clause) = clause_of(there, group.candidate()) else {
        return Ok(Some(23));
    };
    let closed = is_closed(held, clause, pivot);
    if !clause.contains(&pivot)
        || named.contains(&group.candidate())
        || closed && !group.hints().is_empty()
    {
        return Ok(Some(28));
    }
    if closed {
        return Ok(None);
    }
    let mut held = Vec::from_slice(alloc, held)?;
    negate(&mut held, clause, Some(pivot))?;
    hints_fault(&mut held, there, group.hints())
}

fn is_missing(held: &[Lit], there: &[Numbered], pivot: Lit, named: &[u64]) -> bool {
    for numbered in there {
        let clause = numbered.clause;
        if clause.contains(&pivot)
            && !is_closed(held, clause, pivot)
            && !named.contains(&numbered.id)
        {
            return true;
        }
    }
    false
}

fn rat_fault(
    alloc: Global,
    held: &[Lit],
    there: &[Numbered],
    clause: &[Lit],
    groups: &[Group],
) -> Result<Option<u32>, AllocError> {
    let Some(first) = clause.first() else {
        return Ok(Some(26));
    };
    let pivot = first.negated();
    let mut named = Vec::new(alloc);
    for group in groups {
        let fault = group_fault(alloc, held, there, pivot, &named, group)?;
        if fault.is_some() {
            return Ok(fault);
        }
        named.push(group.candidate())?;
    }
    Ok(if is_missing(held, there, pivot, &named) {
        Some(27)
    } else {
        None
    })
}

fn addition_fault(
    alloc: Global,
    vars: u32,
    last: u64,
    there: &[Numbered],
    addition: &Addition,
) -> Result<Option<u32>, AllocError> {
    let clause = addition.clause();
    if addition.id() <= last {
        return Ok(Some(21));
    }
    if !is_over(vars, clause) {
        return Ok(Some(31));
    }
    if has_both_signs(clause) {
        return Ok(Some(22));
    }
    let mut held = Vec::new(alloc);
    negate(&mut held, clause, None)?;
    match hints_fault(&mut held, there, addition.hints())? {
        None if !addition.groups().is_empty() => Ok(Some(25)),
        Some(26) => rat_fault(alloc, &held, there, clause, addition.groups()),
        fault => Ok(fault),
    }
}

/// Takes clauses away; whether each was there in its turn.
fn delete(there: &mut Vec<Numbered>, ids: &[u64]) -> bool {
    for id in ids {
        if clause_of(there, *id).is_none() {
            return false;
        }
        there.retain(|numbered| numbered.id != *id);
    }
    true
}

fn clauses_of(alloc: Global, formula: &Formula) -> Result<Vec<Numbered<'_>>, AllocError> {
    let mut there = Vec::new(alloc);
    for place in 0..formula.clause_count() {
        there.push(Numbered {
            id: place as u64 + 1,
            clause: formula.clause(place),
        })?;
    }
    Ok(there)
}

/// The number of the fault of an addition, if it has one. Its clause is put to those there.
fn add<'a>(
    alloc: Global,
    vars: u32,
    last: u64,
    there: &mut Vec<Numbered<'a>>,
    addition: &'a Addition,
) -> Result<Option<u32>, AllocError> {
    let fault = addition_fault(alloc, vars, last, there, addition)?;
    there.push(Numbered {
        id: addition.id(),
        clause: addition.clause(),
    })?;
    Ok(fault)
}

/// The number and the step of the fault that the plain checker finds: 30 and 0 without an empty
/// clause, else 0 and 0.
fn plain(alloc: Global, formula: &Formula, steps: &[Step]) -> Result<(u32, u64), AllocError> {
    let mut there = clauses_of(alloc, formula)?;
    let mut last = there.len() as u64;
    let mut answer = (30, 0);
    for index in 0..steps.len() {
        let fault = match &steps[index] {
            Step::Add(addition) => {
                let fault = add(alloc, formula.vars(), last, &mut there, addition)?;
                last = addition.id();
                if addition.clause().is_empty() {
                    answer = (0, 0);
                }
                fault
            }
            Step::Delete(deletion) => {
                if delete(&mut there, deletion.ids()) {
                    None
                } else {
                    Some(29)
                }
            }
        };
        if let Some(number) = fault {
            return Ok((number, index as u64 + 1));
        }
    }
    Ok(answer)
}

/// What both checkers answer on a text, where it is a proof's: the crate's, and the plain one.
fn answers(
    alloc: Global,
    formula: &Formula,
    text: &[u8],
) -> Result<Option<((u32, u64), (u32, u64))>, AllocError> {
    let Ok(steps) = read_proof(alloc, text) else {
        return Ok(None);
    };
    let answer = match check(alloc, formula, &steps) {
        Ok(()) => (0, 0),
        Err(fault) => (fault.number(), fault.step().unwrap_or(0)),
    };
    Ok(Some((answer, plain(alloc, formula, &steps)?)))
}

fn compare(rt: &impl Abort, alloc: Global, formula: &Formula, text: &[u8]) -> Result<(), Fail> {
    if let Some((answer, wanted)) = answers(alloc, formula, text)? {
        let text = str::from_utf8(text).unwrap_or("");
        assert_eq!(rt; (text, answer), (text, wanted));
    }
    Ok(())
}

/// Both checkers on a proof with each of some bytes at a place.
fn compare_at(
    rt: &impl Abort,
    alloc: Global,
    formula: &Formula,
    proof: &[u8],
    at: usize,
) -> Result<(), Fail> {
    for byte in b"0123456789 -" {
        let mut text = proof.to_vec(alloc)?;
        if at < text.len() {
            text[at] = *byte;
        }
        compare(rt, alloc, formula, &text)?;
    }
    Ok(())
}

fn compare_all(
    rt: &impl Abort,
    alloc: Global,
    formula: &Formula,
    proof: &[u8],
) -> Result<(), Fail> {
    for at in 0..proof.len() {
        compare_at(rt, alloc, formula, proof, at)?;
    }
    Ok(())
}

#[test]
fn plain_checker_answers_the_same(rt: HostRuntime) -> Result<(), Fail> {
    let formula = read_formula(rt.alloc(), FOUR_UNUSED.as_bytes())?;
    let proofs = [
        "5 1 0 1 2 0\n",
        "5 1 0 1 2 0\n6 0 5 3 4 0\n",
        "5 1 0 -3 1 -4 2 0\n6 0 5 3 4 0\n",
        "5 1 2 0 1 0\n5 d 1 0\n6 1 0 2 5 0\n7 0 6 3 4 0\n",
        "5 3 1 0 0\n6 -3 -1 0 -5 0\n7 1 0 1 2 0\n8 0 7 3 4 0\n",
        "5 3 -1 0 0\n6 -3 2 0 -5 3 0\n7 2 0 1 3 0\n8 0 7 2 4 0\n",
    ];
    for proof in proofs {
        compare_all(&rt, rt.alloc(), &formula, proof.as_bytes())?;
    }
    Ok(())
}
