//! Laws of strategies: the contracts of functions that do nothing.
ghost use Rattle.std.specs.Prelude.{◌≡◌, ◌↔◌, ℕ, List, [], true, Some, None};
ghost use Rattle.theory.specs.Truth.{Formula};
ghost use Rattle.theory.specs.Plans.{Plan, ordered, ordered_within};
ghost use Rattle.theory.specs.Pure.{searched};
ghost use Rattle.theory.specs.Search.{Outcome};
ghost use Rattle.theory.specs.Runs.{Runs};
ghost use Rattle.theory.specs.Reading.{Limits, ReadsWithin, formula};
ghost use Rattle.theory.specs.Written.{IsWrittenWithin};
ghost use Rattle.strategies.specs.Strategies.{Strategy, by_plan};
ghost use Rattle.strategies.specs.Choosing.{first_within, IsDecision, IsChosen};
ghost use Rattle.strategies.specs.Texts.{IsWrittenBy};

/// A formula has one chosen plan. The bytes and the strategy fix the proof and the answer; those of
/// a plan alone are the plan's.
pub fn strategies_write_the_same()
    ensures plan { (F : Formula) (s : Strategy) (p q : Plan) → IsChosen F s p → IsChosen F s q → p ≡ q }
    ensures texts { (L : Limits) (bytes : List ℕ) (s : Strategy) (p a q b : List ℕ) → IsWrittenBy L bytes s p a → IsWrittenBy L bytes s q b →
        (p ≡ q) × (a ≡ b) }
    ensures alone { (L : Limits) (bytes : List ℕ) (plan : Plan) (p a : List ℕ) →
        (IsWrittenBy L bytes (by_plan plan) p a ↔ IsWrittenWithin L bytes plan p a) }
{}

/// The answer of a strategy that gives the first model is that of the ordered search, whatever its
/// budget. Where the search that is made first decides the formula, so is the proof.
pub fn answers_are_the_first()
    ensures answer { (L : Limits) (bytes : List ℕ) (s : Strategy) (plan : Plan) (p a q b : List ℕ) → s.lowers ≡ true → plan.search ≡ ordered →
        IsWrittenBy L bytes s p a → IsWrittenWithin L bytes plan q b → a ≡ b }
    ensures texts { (L : Limits) (bytes : List ℕ) (s : Strategy) (B : ℕ) (F : Formula) (o : Outcome) (p a : List ℕ) → first_within F s ≡ Some B →
        ReadsWithin L bytes (formula F) → Runs (searched F) (ordered_within B) [] o → IsDecision o → IsWrittenBy L bytes s p a →
        IsWrittenWithin L bytes (ordered_within B) p a }
{}

/// A strategy writes what its chosen plan writes with the same kind of model: so a run may go on by
/// that plan elsewhere.
pub fn chosen_plans_write_the_same()
    ensures { (L : Limits) (bytes : List ℕ) (s : Strategy) (F : Formula) (plan : Plan) (p a : List ℕ) → ReadsWithin L bytes (formula F) →
        IsChosen F s plan → (IsWrittenBy L bytes s p a ↔ IsWrittenBy L bytes (record s { first = None; plan = plan }) p a) }
{}
