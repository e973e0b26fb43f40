//! Laws of results that nobody vouches for and that were checked: enough for the answer to be right.
ghost use Rattle.std.specs.Prelude.{◌≡◌, ℕ, List, [], ◌∷◌, ◌++◌, ◌<◌, ◌≤◌, Bool, IsTrue, None, All, is_some};
ghost use Rattle.theory.specs.Literals.{Literal, Clause, IsCube};
ghost use Rattle.theory.specs.Truth.{Formula, Assignment, IsOver, IsFormula, Satisfies, Satisfiable, AreTrue, value, are_true};
ghost use Rattle.theory.specs.FirstModel.{IsFound, IsFoundIn};
ghost use Rattle.theory.specs.Plans.{Search, ordered, Plan};
ghost use Rattle.theory.specs.Learning.{Line};
ghost use Rattle.theory.specs.Pure.{searched};
ghost use Rattle.theory.specs.Search.{Outcome};
ghost use Rattle.theory.specs.Runs.{Runs};
ghost use Rattle.theory.specs.Trees.{Tree, Result, IsResult, IsTree, IsFirstLeaf, first_model};
ghost use Rattle.theory.specs.Steps.{Step, Addition, add};
ghost use Rattle.theory.specs.Checking.{checks, accepted};
ghost use Rattle.theory.specs.Replaying.{AreRefutation};
ghost use Rattle.theory.specs.Beginnings.{Beginning, begun, IsBeginning, proof};
ghost use Rattle.theory.specs.Results.{OutcomeSays, ResultSays, What, Solved, IsTrueOf};
ghost use Rattle.theory.specs.Assembly.{IsAssembled};
ghost use Rattle.theory.specs.Checked.{IsLeastSplit, IsCheckedTree, IsCheckedFirstLeaf, IsCheckedResult, IsCheckedOutcome, IsCheckedOf, model_in};

/// A checked outcome says of its cube what a true one says.
pub fn checked_outcomes_say()
    ensures { (search : Search) (F : Formula) (Q : List Literal) (o : Outcome) → IsCheckedOutcome search F Q o → OutcomeSays search F Q o }
{}

/// Lines that replay as a refutation of a cube leave it no model, whoever wrote them: truth values
/// that make the clauses true don't make all the cube's literals true. Nor does a checked tree
/// without a satisfied leaf.
pub fn checked_tree_has_no_model()
    ensures lines { (V N : ℕ) (Q : List Literal) (K : List Clause) (lines : List Line) (m : ℕ → Bool) → AreRefutation V N Q K lines →
        IsTrue (are_true m K) → ¬ (AreTrue m Q) }
    ensures tree { (F : Formula) (Q : List Literal) (t : Tree) (M : Assignment) → IsCheckedTree F Q t → first_model t ≡ None →
        Satisfies F M → ¬ (AreTrue (value M) Q) }
{}

/// The proof of a checked tree without a satisfied leaf is accepted, however the search began, and
/// ends with the empty clause. So the formula isn't satisfiable.
pub fn checked_proof_is_accepted()
    ensures accepted { (search : Search) (F : Formula) (b : Beginning) (t : Tree) → IsBeginning search F b → IsCheckedTree (begun F b) [] t →
        first_model t ≡ None → checks F (proof F b t) ≡ accepted }
    ensures empty { (search : Search) (F : Formula) (b : Beginning) (t : Tree) → IsBeginning search F b → IsCheckedTree (begun F b) [] t →
        first_model t ≡ None →
        (before : List Step) × (line : Addition) × (proof F b t ≡ before ++ add line ∷ []) × (line.clause ≡ []) }
    ensures unsatisfiable { (search : Search) (F : Formula) (b : Beginning) (t : Tree) → IsBeginning search F b →
        IsCheckedTree (begun F b) [] t → first_model t ≡ None → ¬ (Satisfiable F) }
{}

/// Below the least variable that is free behind propagation, all that satisfies the formula and the
/// cube agrees. So the model of a checked first leaf is what the search finds in the cube, and in
/// the formula: by the ordered search the first one.
pub fn checked_leaf_is_found()
    ensures below { (F : Formula) (Q : List Literal) (x u : ℕ) (M N : Assignment) → IsLeastSplit F Q x → 1 ≤ u → u < x →
        Satisfies F M → AreTrue (value M) Q → Satisfies F N → AreTrue (value N) Q → value M u ≡ value N u }
    ensures cube { (search : Search) (F : Formula) (Q : List Literal) (M : Assignment) → IsCheckedFirstLeaf search F Q M →
        IsFoundIn search F Q M }
    ensures formula { (search : Search) (F : Formula) (M : Assignment) → IsCheckedFirstLeaf search F [] M → IsFound search F M }
{}

/// What a checked result says is so. By the ordered search all checked results of a formula give
/// one answer; by any two searches both have a model or neither has.
pub fn checked_result_is_right()
    ensures says { (search : Search) (F : Formula) (r : Result) → IsCheckedResult search F r → ResultSays search F r }
    ensures one_answer { (F : Formula) (r s : Result) → IsCheckedResult ordered F r → IsCheckedResult ordered F s →
        model_in r ≡ model_in s }
    ensures one_verdict { (search other : Search) (F : Formula) (r s : Result) → IsCheckedResult search F r →
        IsCheckedResult other F s → is_some (model_in r) ≡ is_some (model_in s) }
{}

/// What is true is checked, by each plan: the outcome of a cube, each true result, the tree of a
/// cube, its first model leaf, and the formula's result.
pub fn true_results_are_checked()
    ensures outcome { (F : Formula) (plan : Plan) (Q : List Literal) (o : Outcome) → IsFormula F → IsCube Q → IsOver F.vars Q →
        Runs F plan Q o → IsCheckedOutcome plan.search F Q o }
    ensures what { (F : Formula) (plan : Plan) (Q : List Literal) (w : What) → IsFormula F → IsTrueOf F plan Q w →
        IsCheckedOf plan.search F Q w }
    ensures tree { (F : Formula) (plan : Plan) (Q : List Literal) (t : Tree) → IsFormula F → IsCube Q → IsOver F.vars Q →
        IsTree F plan Q t → IsCheckedTree F Q t }
    ensures leaf { (F : Formula) (plan : Plan) (Q : List Literal) (M : Assignment) → IsFormula F → IsCube Q → IsOver F.vars Q →
        IsFirstLeaf F plan Q M → IsCheckedFirstLeaf plan.search F Q M }
    ensures result { (F : Formula) (plan : Plan) (r : Result) → IsFormula F → IsResult F plan r → IsCheckedResult plan.search F r }
{}

/// A walk from left to right over results that are checked comes to a checked result; over results
/// that are true, to the formula's.
pub fn checked_walk_decides()
    ensures checked { (search : Search) (F : Formula) (results : List Solved) (r : Result) →
        All (λ s. IsCheckedOf search F s.cube s.what) results → IsAssembled results [] r → IsCheckedResult search F r }
    ensures result { (F : Formula) (plan : Plan) (results : List Solved) (r : Result) → All (λ s. IsTrueOf F plan s.cube s.what) results →
        IsAssembled results [] r → IsResult F plan r }
{}
