//! Which lines of a cube are forgotten.
ghost use Rattle.std.specs.Prelude.{◌≡◌, ◌↔◌, ◌+◌, ◌++◌, ◌∷◌, [], ℕ, List, true, false, IsTrue, IfOk, OnOk, length};
ghost use Rattle.theory.specs.Literals.{Clause};
ghost use Rattle.theory.specs.Replaying.{IsForgetting};
ghost use Rattle.packs.specs.Forgotten.{is_marked, AreClear, AreMarked, AreOwn, IsThere};

use std::alloc::{AllocError, Global};

/// Of each line so far, whether it is forgotten. The lines are numbered behind the clauses that a
/// search begins with.
#[derive(Drop)]
pub(crate) struct Forgotten {
    // how many clauses stand before the lines
    first: u64,
    marks: Vec<bool>,
}

impl Forgotten {
    /// No lines yet, behind so many clauses. It takes no memory.
    pub(crate) fn behind(alloc: Global, first: u64) -> Forgotten
        ensures first { result.first ≡ first }
        ensures none { result.marks.items ≡ [] }
    {
        Forgotten {
            first,
            marks: Vec::new(alloc),
        }
    }

    /// Puts a line behind the others.
    fn push(&mut self) -> Result<(), AllocError>
        ensures first { self.new.first ≡ self.old.first }
        ensures marks { OnOk result (self.new.marks.items ≡ self.old.marks.items ++ false ∷ []) }
    {
        self.marks.push(false)?;
        Ok(())
    }

    /// Whether the line of a number is forgotten.
    fn has(&self, number: u64) -> bool
        ensures { result ≡ is_marked self.now.first self.now.marks.items number }
    {
        if number <= self.first {
            return false;
        }
        let place = number - self.first - 1;
        place < self.marks.len() as u64 && self.marks[place as usize]
    }

    /// Whether none of these numbers is that of a forgotten line.
    fn is_clear(&self, numbers: &[u64]) -> bool
        ensures { IsTrue result ↔ AreClear self.now.first self.now.marks.items numbers.now }
    {
        for number in numbers {
            if self.has(*number) {
                return false;
            }
        }
        true
    }

    /// Whether there is a line of that number which isn't forgotten.
    fn is_there(&self, number: u64) -> bool
        ensures { IsTrue result ↔ IsThere self.now.first self.now.marks.items number }
    {
        number > self.first && number - self.first <= self.marks.len() as u64 && !self.has(number)
    }

    /// Forgets the lines of these numbers, if each is one of those so far, and isn't forgotten.
    /// Where it answers that they aren't, some of them may be.
    fn forget(&mut self, numbers: &[u64]) -> bool
        ensures own { IsTrue result ↔ AreOwn self.old.first self.old.marks.items numbers.now }
        ensures marked { result ≡ true → (gone : List ℕ) → AreMarked self.old.first self.old.marks.items gone →
            AreMarked self.old.first self.new.marks.items (gone ++ numbers.now) }
        ensures many { length self.new.marks.items ≡ length self.old.marks.items }
        ensures first { self.new.first ≡ self.old.first }
    {
        for number in numbers {
            let number = *number;
            if !self.is_there(number) {
                return false;
            }
            self.marks[(number - self.first - 1) as usize] = true;
        }
        true
    }

    /// Whether a line of these hints may stand behind the others, and forget the lines of these
    /// numbers: no hint names a forgotten one, and those are lines before it, each once, that aren't
    /// forgotten. If so, it stands there, and they are. It fails where a request for memory is
    /// refused.
    pub(crate) fn add_line(&mut self, hints: &[u64], forgets: &[u64]) -> Result<bool, AllocError>
        ensures forgetting { IfOk result (λ b. (gone : List ℕ) (clause : Clause) → AreMarked self.old.first self.old.marks.items gone →
            (IsTrue b ↔ IsForgetting self.old.first (self.old.first + length self.old.marks.items + 1) gone (record { clause = clause; hints = hints.now; forgets = forgets.now }))) }
        ensures marked { IfOk result (λ b. b ≡ true → (gone : List ℕ) → AreMarked self.old.first self.old.marks.items gone →
            AreMarked self.old.first self.new.marks.items (gone ++ forgets.now)) }
        ensures many { IfOk result (λ b. b ≡ true → length self.new.marks.items ≡ length self.old.marks.items + 1) }
        ensures first { self.new.first ≡ self.old.first }
    {
        if !self.is_clear(hints) || !self.forget(forgets) {
            return Ok(false);
        }
        self.push()?;
        Ok(true)
    }
}
