//! What these choices come to in the search. Each function does nothing: its contract is a law.
ghost use Rattle.std.specs.Prelude.{◌≡◌, ℕ, Bool, List, filter, Some, None, true, false};
ghost use Rattle.theory.specs.Literals.{Literal, Clause, has_var};
ghost use Rattle.theory.specs.Plans as plans;
ghost use Rattle.theory.specs.Trails.{Trail, variables};
ghost use Rattle.theory.specs.Scores.{best_outside};
ghost use Rattle.theory.specs.Forgetting.{Mark, candidates};
ghost use Rattle.heuristics.specs.Rankings.{Ranking, AllWait, vars_of, best_waiting};
ghost use Rattle.heuristics.specs.Lateness.{AreOfDistinctNumbers};

/// Where each of those variables that pass a test waits, if it has no literal in a list, the best one
/// that waits is the best one of these, if it is one; and where none waits, there is none.
pub fn best_waiting_is_best()
    ensures some { (r : Ranking) (p : ℕ → Bool) (P : List Literal) (x : ℕ) → AllWait r p P → best_waiting r ≡ Some x → p x ≡ true → has_var P x ≡ false →
        best_outside (filter p (variables (vars_of r))) P r.scores ≡ Some x }
    ensures none { (r : Ranking) (p : ℕ → Bool) (P : List Literal) → AllWait r p P → best_waiting r ≡ None →
        best_outside (filter p (variables (vars_of r))) P r.scores ≡ None }
{}

/// The candidates of learnt clauses have distinct numbers.
pub fn candidates_are_distinct()
    ensures { (c : plans.Constants) (T : Trail) (n : ℕ) (learnt : List Clause) (marks : List Mark) →
        AreOfDistinctNumbers (candidates c T n learnt marks) }
{}
