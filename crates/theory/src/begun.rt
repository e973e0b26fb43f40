//! Laws of how searches begin, whatever comes behind.
ghost use Rattle.std.specs.Prelude.{◌≡◌, ◌≤◌, ℕ, min, [], true, None};
ghost use Rattle.theory.specs.Truth.{Formula, IsFormula};
ghost use Rattle.theory.specs.Plans.{Constants, Search, ordered, focused, Plan};
ghost use Rattle.theory.specs.Search.{Outcome, exhausted};
ghost use Rattle.theory.specs.Focused.{RunsFocused};
ghost use Rattle.theory.specs.Runs.{Runs};
ghost use Rattle.theory.specs.Trees.{Tree, first_model, Result, IsResult};
ghost use Rattle.theory.specs.Results.{ResultSays};
ghost use Rattle.theory.specs.Checked.{IsCheckedTree, IsCheckedResult};
ghost use Rattle.theory.specs.Beginnings.{Beginning, by_pure_units, begun, result_back, IsBeginning, proof, first_tried, IsToSimplify, Begins};
ghost use Rattle.theory.specs.Rup.{is_rup};

/// However a search begins, its result says of the formula what it says of the clauses that it
/// begins with, be it checked or true: a model of them becomes one of the formula, by the ordered
/// search the first one; and a tree without a model shows that the formula has none.
pub fn begun_results_say()
    ensures back { (search : Search) (F : Formula) (b : Beginning) (r : Result) → IsFormula F → IsBeginning search F b →
        ResultSays search (begun F b) r → ResultSays search F (result_back F b r) }
    ensures checked { (search : Search) (F : Formula) (b : Beginning) (r : Result) → IsFormula F → IsBeginning search F b →
        IsCheckedResult search (begun F b) r → ResultSays search F (result_back F b r) }
    ensures result { (F : Formula) (b : Beginning) (plan : Plan) (r : Result) → IsFormula F → IsBeginning plan.search F b →
        IsResult (begun F b) plan r → ResultSays plan.search F (result_back F b r) }
    ensures formula { (search : Search) (F : Formula) (b : Beginning) → IsFormula F → IsBeginning search F b → IsFormula (begun F b) }
{}

/// A plan's search begins in one way, as it may.
pub fn one_beginning()
    ensures one { (plan : Plan) (F : Formula) (b c : Beginning) → Begins plan F b → Begins plan F c → b ≡ c }
    ensures may { (F : Formula) (plan : Plan) (b : Beginning) → IsFormula F → Begins plan F b → IsBeginning plan.search F b }
{}

/// Where the focused search decides a formula with so few conflicts that it isn't simplified, that
/// is what the plan comes to: nothing of the formula is divided either.
pub fn solved_soon_is_solved()
    ensures { (F : Formula) (plan : Plan) (c : Constants) (o : Outcome) → plan.search ≡ focused c → 1 ≤ plan.budget →
        ((x : ℕ) → ¬ (o ≡ exhausted x)) → RunsFocused c F (min first_tried plan.budget) [] o → Runs F plan [] o × ¬ (IsToSimplify F plan) }
{}

/// Each line of a proof passes by its hints alone, where the search didn't begin with the unit
/// clauses of pure variables, which only the ordered search's does.
pub fn lines_pass_by_hints()
    ensures rup { (search : Search) (F : Formula) (b : Beginning) (t : Tree) → IsBeginning search F b → ¬ (b ≡ by_pure_units) →
        IsCheckedTree (begun F b) [] t → first_model t ≡ None → is_rup F (proof F b t) ≡ true }
    ensures others { (plan : Plan) (F : Formula) (b : Beginning) → ¬ (plan.search ≡ ordered) → Begins plan F b → ¬ (b ≡ by_pure_units) }
{}
