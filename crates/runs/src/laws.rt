//! A law of runs: the contract of a function that does nothing.
ghost use Rattle.std.specs.Prelude.{◌≡◌, ℕ, List, Some};
ghost use Rattle.theory.specs.Reading.{Limits};
ghost use Rattle.strategies.specs.Strategies.{Strategy};
ghost use Rattle.runs.specs.declared.verdict.Verdict.{Verdict};
ghost use Rattle.runs.specs.Run.{IsRunOf};

/// The bytes, the limits and the strategy fix the verdict, the proof and the answer of a run.
pub fn runs_write_the_same()
    ensures { (L : Limits) (input : List ℕ) (strategy : Strategy) (v w : Verdict) (p a q b : List ℕ) →
        IsRunOf L (Some input) strategy v p a → IsRunOf L (Some input) strategy w q b → (v ≡ w) × (p ≡ q) × (a ≡ b) }
{}
