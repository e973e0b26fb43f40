//! The hints of a unit's line: the reasons of what makes the other literals of its reason false.
ghost use Rattle.std.specs.Prelude.{◌≡◌, ◌<◌, ◌≤◌, ◌++◌, ◌||◌, ◌∷◌, [], ℕ, true, IfOk, OnOk, All, Some, is_some, length, slice_get, take};
ghost use Rattle.std.specs.List.Sorted.{IsStrictlyIncreasing};
ghost use Rattle.theory.specs.Literals.{has, negated, without};
ghost use Rattle.theory.specs.Status.{is_false};
ghost use Rattle.theory.specs.Trails as trails;
ghost use Rattle.theory.specs.Trails.{literals};
ghost use Rattle.theory.specs.Propagation.{clause_at};
ghost use Rattle.theory.specs.Units.{unit_line, wide_reason};
ghost use Rattle.cdcl.specs.Numbers.{is_one_of};
ghost use Rattle.cdcl.specs.Units.{is_against, reasons_at};

use cnf::{Lit, put_last};
use kernel::SearchKernel;
use std::alloc::{AllocError, Global};

/// The hints of one unit's line after another's. It keeps its memory.
#[derive(Drop)]
pub(crate) struct UnitHints {
    // the places of the entries that make the other literals of the reason false
    places: Vec<usize>,
    /// The reasons of these entries in the order of the trail, and then the unit's own.
    pub(crate) hints: Vec<u64>,
}

/// Puts the place of the entry that makes a literal false behind the others.
fn put_place(kernel: &SearchKernel, places: &mut Vec<usize>, lit: Lit) -> Result<(), AllocError>
    requires { has (literals kernel.now.trail) (negated lit) ≡ true }
    ensures { OnOk result ((p : ℕ) → is_one_of places.new.items p ≡ (is_one_of places.old.items p || is_against (lit ∷ []) (slice_get kernel.now.trail p))) }
{
    let _trail = kernel.trail(); // it ensures what the proof needs of the trail
    if let Some(place) = kernel.place(lit.var()) {
        put_last(places, place)?;
    }
    Ok(())
}

/// Puts the places of the entries that make the literals of a clause but for one false behind the
/// others.
fn put_places(
    kernel: &SearchKernel,
    places: &mut Vec<usize>,
    clause: &[Lit],
    lit: Lit,
) -> Result<(), AllocError>
    requires { is_false (literals kernel.now.trail) (without clause.now lit) ≡ true }
    ensures { OnOk result ((p : ℕ) → is_one_of places.new.items p ≡ (is_one_of places.old.items p || is_against (without clause.now lit) (slice_get kernel.now.trail p))) }
{
    for other in clause {
        if !other.same(&lit) {
            put_place(kernel, places, *other)?;
        }
    }
    Ok(())
}

/// Puts the reasons of the entries at these places behind the others.
fn put_reasons(
    kernel: &SearchKernel,
    places: &[usize],
    hints: &mut Vec<u64>,
) -> Result<(), AllocError>
    requires { All (λ p. p < length kernel.now.trail) places.now }
    ensures { OnOk result (hints.new.items ≡ hints.old.items ++ reasons_at kernel.now.trail places.now) }
{
    let trail = kernel.trail();
    for place in places {
        let entry = trail[*place];
        if let Some(number) = entry.reason {
            put_last(hints, number)?;
        }
    }
    Ok(())
}

impl UnitHints {
    /// Of no unit. It takes no memory.
    pub(crate) fn none(alloc: Global) -> UnitHints {
        UnitHints {
            places: Vec::new(alloc),
            hints: Vec::new(alloc),
        }
    }

    /// Takes up the places of the entries that make the literals of the clause of a number but for
    /// one false, in the order of the trail.
    fn take_places(
        &mut self,
        kernel: &SearchKernel,
        number: u64,
        lit: Lit,
    ) -> Result<(), AllocError>
        requires number { (1 ≤ number) × (number ≤ length kernel.now.clauses) }
        requires others { is_false (literals kernel.now.trail) (without (clause_at kernel.now.clauses number) lit) ≡ true }
        ensures rising { OnOk result (IsStrictlyIncreasing self.new.places.items) }
        ensures places { OnOk result ((p : ℕ) → is_one_of self.new.places.items p ≡ is_against (without (clause_at kernel.now.clauses number) lit) (slice_get kernel.now.trail p)) }
    {
        self.places.clear();
        put_places(kernel, &mut self.places, kernel.arranged(number), lit)?;
        self.places.sort_unstable();
        self.places.dedup();
        Ok(())
    }

    /// Whether the reason of the entry at a place has other literals. If so, it takes up the hints
    /// of the line that its literal becomes.
    pub(crate) fn take_up(
        &mut self,
        kernel: &SearchKernel,
        place: usize,
    ) -> Result<bool, AllocError>
        requires { place < length kernel.now.trail }
        ensures wide { IfOk result (λ wide. (e : trails.Entry) → slice_get kernel.now.trail place ≡ Some e → wide ≡ is_some (wide_reason kernel.now.clauses e.reason)) }
        ensures reason { IfOk result (λ wide. wide ≡ true → (e : trails.Entry) → slice_get kernel.now.trail place ≡ Some e → is_some e.reason ≡ true) }
        ensures hints { IfOk result (λ wide. (e : trails.Entry) (n : ℕ) → slice_get kernel.now.trail place ≡ Some e → wide_reason kernel.now.clauses e.reason ≡ Some n →
            self.new.hints.items ≡ (unit_line kernel.now.clauses (take place kernel.now.trail) e.lit n).hints) }
    {
        let entry = kernel.trail()[place];
        let Some(number) = entry.reason else {
            return Ok(false);
        };
        self.take_places(kernel, number, entry.lit)?;
        if self.places.is_empty() {
            return Ok(false);
        }
        self.hints.clear();
        put_reasons(kernel, &self.places, &mut self.hints)?;
        put_last(&mut self.hints, number)?;
        Ok(true)
    }
}
