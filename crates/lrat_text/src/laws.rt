//! Laws of the text of proofs: each is the contract of a function that does nothing.
ghost use Rattle.std.specs.Prelude.{◌≡◌, ◌≤◌, ℕ, List, length, All};
ghost use Rattle.theory.specs.Steps.{Step};
ghost use Rattle.theory.specs.Texts.{proof_text};
ghost use Rattle.theory.specs.Reading.{Limits};
ghost use Rattle.theory.specs.ProofReading.{IsStep, ProofReading, steps, ProofReadsWithin, max_proof_bytes};

/// A text is read in one way.
pub fn one_reading()
    ensures { (L : Limits) (bytes : List ℕ) (r s : ProofReading) → ProofReadsWithin L bytes r → ProofReadsWithin L bytes s → r ≡ s }
{}

/// The text of steps is read as these steps, and as nothing else, where it is no longer than a text
/// may be.
pub fn written_is_read()
    ensures read { (L : Limits) (ss : List Step) → All IsStep ss → length (proof_text ss) ≤ max_proof_bytes L →
        ProofReadsWithin L (proof_text ss) (steps ss) }
    ensures only { (L : Limits) (ss : List Step) (r : ProofReading) → All IsStep ss → length (proof_text ss) ≤ max_proof_bytes L →
        ProofReadsWithin L (proof_text ss) r → r ≡ steps ss }
{}
