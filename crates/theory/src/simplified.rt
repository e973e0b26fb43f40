//! Laws of simplification before a search, whatever chooses the changes and their order.
ghost use Rattle.std.specs.Prelude.{◌≡◌, ℕ, List, [], ◌∷◌, ◌++◌, ◌≤◌, ◌+◌, length, Bool, true, false, Some, None, ◌⊎◌, ◌↔◌, All};
ghost use Rattle.std.specs.List.{list_all, list_any};
ghost use Rattle.std.specs.Option.{unwrap_or};
ghost use Rattle.theory.specs.Literals.{Literal, Clause, has, has_var, has_both_signs, positive, negative, without};
ghost use Rattle.theory.specs.Checking.{Numbered, clause_of, Checker, checks, check_from, accepted};
ghost use Rattle.theory.specs.Deletions.{names};
ghost use Rattle.theory.specs.Truth.{Formula, Assignment, IsOver, IsFormula, Satisfies, Satisfiable, are_true};
ghost use Rattle.theory.specs.Plans.{Search};
ghost use Rattle.theory.specs.Steps.{Step};
ghost use Rattle.theory.specs.Reading.{large, IsWithinLimits};
ghost use Rattle.theory.specs.ProofReading.{IsStep, max_proof_bytes};
ghost use Rattle.theory.specs.Eliminating.{elimination, tidying, IsTidy};
ghost use Rattle.theory.specs.Trying.{changes_of, IsSimplification};
ghost use Rattle.theory.specs.Beginnings.{Beginning, begun, lines_before, IsBeginning};
ghost use Rattle.theory.specs.Propagation.{clause_at};
ghost use Rattle.theory.specs.Forgetting.{forgotten};
ghost use Rattle.theory.specs.Simplifying.{resolvent, having, is_implied, AreResolved, IsAddable, simplification, kept_clauses, Simplified, Change, changed, changed_by, unsimplified, simplified, clauses_in, IsFit, AreFit, AreSimplifying, IsSimplificationOf, extended_model, simplified_formula};

/// A resolvent passes by the two clauses that it follows from, whatever the order of its literals,
/// if it is one of the clauses that may be added: a hint makes the first one unit, in the literal
/// that both have, and then the second one is false.
pub fn resolvents_replay()
    ensures { (V : ℕ) (K : Numbered) (l : Literal) (c d r : Clause) (i j : ℕ) → clause_of K i ≡ Some c → clause_of K j ≡ Some d →
        has c l ≡ true → list_all (has r) (resolvent l c d) ≡ true → has_var r l.var ≡ false → has_both_signs r ≡ false → IsOver V r →
        IsAddable V K (record { clause = r; hints = i ∷ j ∷ []; forgets = [] }) }
{}

/// All resolvents on a variable are implied, where those with a unit clause are: so where each
/// clause that has one of the variable's literals is implied without it.
pub fn units_eliminate()
    ensures positive { (L K : Numbered) (x : ℕ) → list_all (λ d. is_implied L (without d (negative x))) (having (negative x) K) ≡ true →
        AreResolved L K x }
    ensures negative { (L K : Numbered) (x : ℕ) → list_all (λ c. is_implied L (without c (positive x))) (having (positive x) K) ≡ true →
        AreResolved L K x }
{}

/// A formula that isn't simplified yet says what it says; each change that is fit keeps that, and
/// so do all changes of a simplification.
pub fn simplifications_keep()
    ensures begins { (F : Formula) → IsFormula F → IsSimplificationOf F (unsimplified F) }
    ensures goes_on { (F : Formula) (s : Simplified) (c : Change) → IsSimplificationOf F s → IsFit F.vars s c → IsSimplificationOf F (changed s c) }
    ensures whole { (F : Formula) (cs : List Change) → IsFormula F → AreSimplifying F cs → IsSimplificationOf F (simplified F cs) }
{}

/// Truth values make the list of clauses true that a search begins with just where they make those
/// true that are there. A model of them, with the eliminated variables' values, is one of the
/// formula; and they have a model just where the formula has one.
pub fn simplified_models_extend()
    ensures kept { (F : Formula) (s : Simplified) (m : ℕ → Bool) → IsSimplificationOf F s →
        are_true m (kept_clauses s) ≡ are_true m (clauses_in s.clauses) }
    ensures formula { (F : Formula) (s : Simplified) → IsSimplificationOf F s → 1 ≤ F.vars → IsFormula (simplified_formula F s) }
    ensures model { (F : Formula) (s : Simplified) (M : Assignment) → IsFormula F → IsSimplificationOf F s →
        Satisfies (simplified_formula F s) M → Satisfies F (extended_model F.vars s.eliminated M) }
    ensures satisfiable { (F : Formula) (s : Simplified) → IsFormula F → IsSimplificationOf F s →
        (Satisfiable F ↔ Satisfiable (simplified_formula F s)) }
{}

/// The checker accepts the lines of a simplification, and has then just the clauses that are there,
/// each under its number; in the list that a search begins with the others are forgotten. So a proof
/// that is accepted over this list, and names no clause that was dropped, is accepted behind these
/// lines. However a search begins, behind the lines before all others it has the clauses that the
/// search begins with, but for forgotten ones.
pub fn simplification_is_accepted()
    ensures accepted { (F : Formula) (cs : List Change) → AreSimplifying F cs →
        (s : Checker) × (s.clauses ≡ (simplified F cs).clauses) × (s.last ≡ (simplified F cs).last) ×
        ((rest : List Step) → checks F (simplification F cs ++ rest) ≡ check_from F.vars (1 + length (simplification F cs)) s rest) }
    ensures continued { (F : Formula) (cs : List Change) (rest : List Step) → AreSimplifying F cs →
        checks (simplified_formula F (simplified F cs)) rest ≡ accepted →
        ((n : ℕ) → list_any (names n) rest ≡ true → n ≤ (simplified F cs).last → clause_of (simplified F cs).clauses n ≡ None → ⊥) →
        checks F (simplification F cs ++ rest) ≡ accepted }
    ensures before { (search : Search) (F : Formula) (b : Beginning) → IsBeginning search F b →
        let K = (begun F b).clauses in let before = lines_before F b in
        (s : Checker) × (s.last ≡ length K) ×
        ((n : ℕ) → 1 ≤ n → n ≤ length K → (clause_of s.clauses n ≡ Some (clause_at K n)) ⊎ (clause_at K n ≡ forgotten)) ×
        ((rest : List Step) → checks F (before ++ rest) ≡ check_from F.vars (1 + length before) s rest) }
    ensures length { (s : Simplified) → length (kept_clauses s) ≡ s.last }
    ensures kept { (s : Simplified) (n : ℕ) → 1 ≤ n → n ≤ s.last →
        clause_at (kept_clauses s) n ≡ unwrap_or (clause_of s.clauses n) forgotten }
{}

/// The lines before a tree's are within the limits of a proof's text, where those of a
/// simplification are no more than it may have bytes; and no number of a clause is above those of
/// the formula by more than there are lines.
pub fn lines_before_are_within()
    ensures steps { (search : Search) (F : Formula) (b : Beginning) → IsWithinLimits large F → IsBeginning search F b →
        length (lines_before F b) ≤ max_proof_bytes large → All IsStep (lines_before F b) }
    ensures last { (F : Formula) (cs : List Change) → (simplified F cs).last ≤ length F.clauses + length (simplification F cs) }
{}

/// The changes that drop the clauses with both signs of a variable are fit. So are then those by
/// which any variable is eliminated, with all resolvents or with those of a unit clause alone; and
/// what is left is as tidy.
pub fn eliminations_are_fit()
    ensures tidying { (F : Formula) → IsFormula F → AreFit F.vars (unsimplified F) (tidying (unsimplified F)) ×
        IsTidy F.vars (changed_by (unsimplified F) (tidying (unsimplified F))) }
    ensures elimination { (V x : ℕ) (s : Simplified) → IsTidy V s → AreFit V s (elimination x s) × IsTidy V (changed_by s (elimination x s)) }
{}

/// A formula has one simplification, and its changes are fit.
pub fn one_simplification()
    ensures one { (F : Formula) (cs ds : List Change) → IsSimplification F cs → IsSimplification F ds → cs ≡ ds }
    ensures fit { (F : Formula) (cs : List Change) → IsFormula F → IsSimplification F cs → AreSimplifying F cs }
{}

/// A try leaves no more clauses than there were, and so does a simplification.
pub fn clauses_stay_few()
    ensures try_one { (V x : ℕ) (s : Simplified) → IsTidy V s → length (changed_by s (changes_of x s)).clauses ≤ length s.clauses }
    ensures whole { (F : Formula) (cs : List Change) → IsFormula F → IsSimplification F cs → length (simplified F cs).clauses ≤ length F.clauses }
{}
