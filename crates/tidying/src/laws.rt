//! Law of formulas without what repeats: the contract of a function that does nothing.
ghost use Rattle.std.specs.Prelude.{◌↔◌};
ghost use Rattle.theory.specs.Truth.{Formula, Assignment, Satisfies};
ghost use Rattle.tidying.specs.Tidied.{tidied};

/// A formula without what repeats has the same models.
pub fn tidied_has_the_same_models()
    ensures { (F : Formula) (M : Assignment) → Satisfies (tidied F) M ↔ Satisfies F M }
{}
