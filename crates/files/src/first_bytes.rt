//! The first bytes of a text.
ghost use Rattle.std.specs.Prelude.{◌≡◌, ℕ, ◌≤◌, List, [], ◌++◌, length, take};
ghost use Rattle.files.specs.declared.first_bytes.TheConstants.{KEPT};

use arrayvec::ArrayVec;
use std::marker::Model;

/// How many bytes of a text are kept: enough to tell what sort of file it is.
pub const KEPT: usize = 64;

/// The first bytes of a text that comes in pieces. Contracts see them as a list.
#[derive(Drop)]
pub struct FirstBytes {
    bytes: ArrayVec<u8, KEPT>,
}

impl Model for FirstBytes {
    ghost Value = { List ℕ };

    ghost view = { λ b. b.bytes.items };
}

impl FirstBytes {
    /// Of a text of which nothing has come.
    pub fn new() -> FirstBytes
        ensures { result ≡ [] }
    {
        FirstBytes {
            bytes: ArrayVec::new(),
        }
    }

    /// Takes the text's next piece.
    pub(crate) fn add(&mut self, piece: &[u8])
        ensures { self.new ≡ take KEPT (self.old ++ piece.now) }
    {
        let count = self.bytes.remaining_capacity().min(piece.len());
        let _ = self.bytes.try_extend_from_slice(&piece[..count]);
    }

    /// The first bytes, at most 64.
    pub fn bytes(&self) -> &[u8]
        ensures bytes { result.now ≡ self.now }
        ensures few { length result.now ≤ KEPT }
    {
        self.bytes.as_slice()
    }
}
