//! Who may interrupt a question.
ghost use Rattle.std.specs.Prelude.{◌≡◌, Bool, true, false};

/// Whoever may interrupt a question.
pub trait Interrupt {
    /// Whether it may ever interrupt one.
    ghost may_interrupt: { Self → Bool };

    /// Whether the question is to end without an answer. It is asked now and then, between two steps
    /// of the search.
    fn interrupts(&self) -> bool
        ensures { result ≡ true → may_interrupt self.now ≡ true };
}

/// Nobody: each question is answered.
#[derive(Clone, Copy)]
pub struct Never;

impl Interrupt for Never {
    ghost may_interrupt = { λ n. false };

    fn interrupts(&self) -> bool {
        false
    }
}
