//! The scores of variables, by which the focused search decides and splits.
ghost use Rattle.std.specs.Prelude.{◌≡◌, ◌≢◌, ◌<◌, ◌≤◌, ◌+◌, ◌/◌, ◌^◌, ℕ, List, true, false, map, filter, drop, length, slice_index, nat_eq, nat_lt, IfOk, OnOk, OnErr, if◌then◌else◌};
ghost use Rattle.std.specs.List.{list_any};
ghost use Rattle.theory.specs.Literals.{IsVariable};
ghost use Rattle.theory.specs.Trails.{variables};
ghost use Rattle.theory.specs.Scores.{first_scores, divided, scores_after};
ghost use Rattle.heuristics.specs.Modes.{mode_of};
ghost use Rattle.heuristics.specs.Tournaments.{IsField, IsPlayedBut};
ghost use Rattle.heuristics.specs.Rankings.{waiting_in, AreRanked, AreDistinct, first_ranking, vars_of, best_waiting, with_waiting, after_conflict, IsKept};

use crate::constants::Constants;
use crate::mode::Mode;
use crate::tournament::{enter, play_all, raise, rescore};
use std::alloc::{AllocError, Global};
use std::marker::Model;

/// Where one in so many variables or more gains, all matches are played once. Seen on a formula of
/// 45,000 variables, a match then takes some 3 ns, since they go through memory in order, and a gain
/// by itself some 50, up a path through far places. So both ways take as long at one in sixteen,
/// and an eighth is well past that.
const LARGE_PART: usize = 8;

/// The scores of the variables 1 to so many, the step that a score gains, and which variables wait
/// to be chosen.
#[derive(Drop)]
pub struct Scores {
    constants: Constants,
    // by variable; number 0, which is none, has the score 0
    scores: Vec<u64>,
    step: u64,
    // the tournament of those that wait
    winners: Vec<u32>,
    // the variables that have a score, and perhaps others
    gained: Vec<u32>,
}

impl Model for Scores {
    ghost use Rattle.std.specs.Prelude.{◌<◌, ◌≤◌};
    ghost use Rattle.heuristics.specs.Ranges.{AreInRange};
    ghost use Rattle.heuristics.specs.Rankings.{Ranking, AreRanked, AreBounded, ranking};

    ghost Value = { Ranking };

    ghost view = { λ a. ranking a.constants a.scores.items a.step a.winners.items };

    ghost invariant = { λ a. AreRanked a.scores.items a.winners.items a.gained.items × AreInRange a.constants
        × (64 ≤ a.step) × (a.step < a.constants.greatest_step) × AreBounded a.scores.items a.step };
}

/// The leaf of each variable, which waits, and of number 0, in a tournament that isn't played yet.
fn leaves_of(alloc: Global, vars: u32) -> Result<Vec<u32>, AllocError>
    ensures { IfOk result (λ w. (S : List ℕ) → length S ≡ vars + 1 →
        IsField S w.items × (waiting_in S w.items ≡ map (λ v. true) (variables vars))) }
{
    let count = vars as usize + 1;
    let mut winners = vec![in alloc; 0; 2 * count]?;
    for variable in 0..count {
        winners[count + variable] = variable as u32;
    }
    Ok(winners)
}

/// Notes each variable of a list that has the score 0 yet. Where memory runs out, only those before
/// are noted.
fn note_first_gains(scores: &[u64], gained: &mut Vec<u32>, seen: &[u32]) -> Result<(), AllocError>
    requires within { (i : ℕ) → slice_index gained.old.items i < length scores.now }
    requires gained { (v : ℕ) → slice_index scores.now v ≢ 0 → list_any (nat_eq v) gained.old.items ≡ true }
    requires variables { (i : ℕ) → i < length seen.now → slice_index seen.now i < length scores.now }
    ensures within { (i : ℕ) → slice_index gained.new.items i < length scores.now }
    ensures gained { (v : ℕ) → slice_index scores.now v ≢ 0 → list_any (nat_eq v) gained.new.items ≡ true }
    ensures noted { OnOk result ((v : ℕ) → list_any (nat_eq v) seen.now ≡ true →
        list_any (nat_eq v) gained.new.items ≡ true) }
{
    for variable in seen {
        if scores[*variable as usize] == 0 {
            gained.push(*variable)?;
        }
    }
    Ok(())
}

/// Adds a step to the score of each variable of a list, and plays no match.
fn add_to_all(scores: &mut [u64], seen: &[u32], step: u64)
    requires variables { (i : ℕ) → i < length seen.now → slice_index seen.now i < length scores.old }
    requires distinct { AreDistinct seen.now }
    requires room { (v : ℕ) → slice_index scores.old v + step < 2 ^ 64 }
    ensures { (v : ℕ) → v < length scores.old → slice_index scores.new v ≡
        slice_index scores.old v + (if list_any (nat_eq v) seen.now then step else 0) }
{
    for variable in seen {
        scores[*variable as usize] += step;
    }
}

/// Adds a step to the score of each variable of a list, and plays its matches again, one after the
/// other.
fn raise_each(scores: &mut [u64], winners: &mut [u32], seen: &[u32], step: u64)
    requires played { IsPlayedBut scores.old winners.old 0 }
    requires variables { (i : ℕ) → i < length seen.now →
        (1 ≤ slice_index seen.now i) × (slice_index seen.now i < length scores.old) }
    requires distinct { AreDistinct seen.now }
    requires room { (v : ℕ) → slice_index scores.old v + step < 2 ^ 64 }
    ensures played { IsPlayedBut scores.new winners.new 0 }
    ensures leaves { drop (length scores.old) winners.new ≡ drop (length scores.old) winners.old }
    ensures gained { (v : ℕ) → v < length scores.old → slice_index scores.new v ≡
        slice_index scores.old v + (if list_any (nat_eq v) seen.now then step else 0) }
{
    for variable in seen {
        let score = scores[*variable as usize] + step;
        raise(scores, winners, *variable, score);
    }
}

/// Adds a step to the score of each variable of a list.
fn gain_all(scores: &mut [u64], winners: &mut [u32], seen: &[u32], step: u64)
    requires played { IsPlayedBut scores.old winners.old 0 }
    requires variables { (i : ℕ) → i < length seen.now →
        (1 ≤ slice_index seen.now i) × (slice_index seen.now i < length scores.old) }
    requires distinct { AreDistinct seen.now }
    requires room { (v : ℕ) → slice_index scores.old v + step < 2 ^ 64 }
    ensures played { IsPlayedBut scores.new winners.new 0 }
    ensures leaves { drop (length scores.old) winners.new ≡ drop (length scores.old) winners.old }
    ensures gained { (v : ℕ) → v < length scores.old → slice_index scores.new v ≡
        slice_index scores.old v + (if list_any (nat_eq v) seen.now then step else 0) }
{
    if seen.len() < scores.len() / LARGE_PART {
        raise_each(scores, winners, seen, step);
    } else {
        add_to_all(scores, seen, step);
        play_all(scores, winners);
    }
}

/// Divides all scores, and plays the tournament anew, since scores may become equal. Most are 0, and
/// to look is quicker than to divide: of a million variables it takes half the time, 3 ms.
fn divide_all(scores: &mut [u64], winners: &mut [u32], divisor: u64)
    requires played { IsPlayedBut scores.old winners.old 0 }
    requires divisor { 1 ≤ divisor }
    ensures scores { scores.new ≡ map (λ x. x / divisor) scores.old }
    ensures played { IsPlayedBut scores.new winners.new 0 }
    ensures leaves { drop (length scores.old) winners.new ≡ drop (length scores.old) winners.old }
{
    for score in scores.iter_mut() {
        if *score > 0 {
            *score /= divisor;
        }
    }
    play_all(scores, winners);
}

/// Takes out each variable whose score is 0, in place.
fn keep_scored(gained: &mut Vec<u32>, scores: &[u64])
    requires { (i : ℕ) → slice_index gained.old.items i < length scores.now }
    ensures { gained.new.items ≡ filter (λ v. nat_lt 0 (slice_index scores.now v)) gained.old.items }
{
    let mut kept = 0;
    for place in 0..gained.len() {
        let variable = gained[place];
        if scores[variable as usize] > 0 {
            gained[kept] = variable;
            kept += 1;
        }
    }
    gained.truncate(kept);
}

/// The step, or, where it is the greatest one or above, a part of it; all scores are divided then
/// too. Most are 0 from then on: these no longer count as gained, or they would be noted once more
/// at each division.
fn divide_where_due(
    scores: &mut [u64],
    winners: &mut [u32],
    gained: &mut Vec<u32>,
    step: u64,
    constants: Constants,
) -> u64
    requires ranked { AreRanked scores.old winners.old gained.old.items }
    requires divisor { 1 ≤ constants.divisor }
    ensures divided { record { scores = drop 1 scores.new; step = result }
        ≡ divided constants (record { scores = drop 1 scores.old; step = step }) }
    ensures ranked { AreRanked scores.new winners.new gained.new.items }
    ensures leaves { drop (length scores.old) winners.new ≡ drop (length scores.old) winners.old }
{
    if step < constants.greatest_step {
        return step;
    }
    divide_all(scores, winners, constants.divisor);
    keep_scored(gained, scores);
    step / constants.divisor
}

/// Adds the step to the score of each variable of a list; and the step behind a conflict in this
/// mode, by which all scores may have been divided. Where memory runs out, no score has changed.
fn gain_and_grow(
    scores: &mut [u64],
    winners: &mut [u32],
    gained: &mut Vec<u32>,
    seen: &[u32],
    step: u64,
    constants: Constants,
    mode: Mode,
) -> Result<u64, AllocError>
    requires ranked { AreRanked scores.old winners.old gained.old.items }
    requires variables { (i : ℕ) → i < length seen.now →
        (1 ≤ slice_index seen.now i) × (slice_index seen.now i < length scores.old) }
    requires distinct { AreDistinct seen.now }
    requires room { ((v : ℕ) → slice_index scores.old v + step < 2 ^ 63) × (step < 2 ^ 56) }
    ensures after { IfOk result (λ next. record { scores = drop 1 scores.new; step = next }
        ≡ scores_after constants (mode_of mode) (length (drop 1 scores.old)) (λ v. list_any (nat_eq v) seen.now) (record { scores = drop 1 scores.old; step = step })) }
    ensures unchanged { OnErr result (scores.new ≡ scores.old) }
    ensures ranked { AreRanked scores.new winners.new gained.new.items }
    ensures leaves { drop (length scores.old) winners.new ≡ drop (length scores.old) winners.old }
{
    note_first_gains(scores, gained, seen)?;
    gain_all(scores, winners, seen, step);
    let next = step + step / constants.growth(mode);
    Ok(divide_where_due(scores, winners, gained, next, constants))
}

/// Makes the scores of all variables that gained 0 again.
fn reset_all(scores: &mut [u64], winners: &mut [u32], gained: &[u32])
    requires { AreRanked scores.old winners.old gained.now }
    ensures scores { (v : ℕ) → slice_index scores.new v ≡ 0 }
    ensures played { IsPlayedBut scores.new winners.new 0 }
    ensures leaves { drop (length scores.old) winners.new ≡ drop (length scores.old) winners.old }
{
    for variable in gained {
        let variable = *variable;
        if variable != 0 {
            rescore(scores, winners, variable, 0);
        }
    }
}

impl Scores {
    /// The scores of the variables 1 to `vars`, all 0, each of which waits. It takes 24 bytes a
    /// variable.
    pub fn open(alloc: Global, vars: u32, constants: Constants) -> Result<Scores, AllocError>
        ensures { IfOk result (λ s. s ≡ first_ranking constants vars) }
    {
        let step = constants.first_step;
        let scores = vec![in alloc; 0; vars as usize + 1]?;
        let mut winners = leaves_of(alloc, vars)?;
        play_all(&scores, &mut winners);
        Ok(Scores {
            constants,
            scores,
            step,
            winners,
            gained: Vec::new(alloc),
        })
    }

    /// Of the variables that wait, the one of greatest score, of several the greatest. It takes
    /// constant time.
    pub fn best(&self) -> Option<u32>
        ensures { result ≡ best_waiting self.now }
    {
        let variable = self.winners[1];
        if variable == 0 { None } else { Some(variable) }
    }

    /// Takes a variable out of those that wait, if it is one. It takes logarithmic time.
    pub fn take_out(&mut self, variable: u32)
        requires { IsVariable (vars_of self.old) variable }
        ensures { self.new ≡ with_waiting self.old variable false }
    {
        enter(&self.scores, &mut self.winners, variable, 0);
    }

    /// Puts a variable among those that wait, unless it is one. It takes logarithmic time at most,
    /// mostly a few steps.
    pub fn put_back(&mut self, variable: u32)
        requires { IsVariable (vars_of self.old) variable }
        ensures { self.new ≡ with_waiting self.old variable true }
    {
        enter(&self.scores, &mut self.winners, variable, variable);
    }

    /// Takes a conflict in this mode that has seen these variables, distinct ones: each one's score
    /// gains the step, which then grows; where it comes to the greatest one, it and all scores are
    /// divided. Where memory runs out, nothing has changed. It takes logarithmic time for each of
    /// them, or time by all variables where they are an eighth of these, and where it divides.
    pub fn learn_from(&mut self, seen: &[u32], mode: Mode) -> Result<(), AllocError>
        requires variables { (i : ℕ) → i < length seen.now → IsVariable (vars_of self.old) (slice_index seen.now i) }
        requires distinct { AreDistinct seen.now }
        ensures after { OnOk result (self.new ≡ after_conflict self.old (mode_of mode) seen.now) }
        ensures unchanged { OnErr result (self.new ≡ self.old) }
        ensures kept { IsKept self.old self.new }
    {
        self.step = gain_and_grow(
            &mut self.scores,
            &mut self.winners,
            &mut self.gained,
            seen,
            self.step,
            self.constants,
            mode,
        )?;
        Ok(())
    }

    /// The scores as another cube begins; which variables wait stays. It takes logarithmic time for
    /// each variable that has a score.
    pub fn begin_again(&mut self)
        ensures { self.new ≡ record self.old { scores = first_scores self.old.constants (vars_of self.old) } }
    {
        let constants = self.constants;
        reset_all(&mut self.scores, &mut self.winners, &self.gained);
        self.gained.clear();
        self.step = constants.first_step;
    }
}
