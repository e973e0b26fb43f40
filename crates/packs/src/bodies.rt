//! The bodies of a pack, one after the other.
ghost use Rattle.std.specs.Prelude.{◌≡◌, ◌≢◌, ◌++◌, [], ◌↔◌, ℕ, List, length, IsTrue, MatchOption};
ghost use Rattle.std.specs.Int.{w64, to_le_bytes};
ghost use Rattle.packs.specs.Packs.{framed};

use std::marker::Model;

/// How many bytes a length takes.
const HEAD: usize = 8;

/// The number of eight bytes, the lowest first.
fn length_of(head: &[u8]) -> u64
    requires { length head.now ≡ 8 }
    ensures { to_le_bytes w64 result ≡ head.now }
{
    u64::from_le_bytes([
        head[0], head[1], head[2], head[3], head[4], head[5], head[6], head[7],
    ])
}

/// The bytes of a pack that are still to be read. They may be any.
#[derive(Drop)]
pub struct Bodies<'a> {
    left: &'a [u8],
}

impl<'a> Model for Bodies<'a> {
    ghost use Rattle.std.specs.Prelude.{ℕ, List};

    ghost Value = { List ℕ };

    ghost view = { λ a. a.left.now };
}

impl<'a> Bodies<'a> {
    /// All bodies of these bytes. It takes no memory.
    pub fn of(bytes: &'a [u8]) -> Bodies<'a>
        ensures { result ≡ bytes.now }
    {
        Bodies { left: bytes }
    }

    /// Whether no byte is left: where there is one, and `next` gave none, the pack breaks off.
    pub fn is_empty(&self) -> bool
        ensures { IsTrue result ↔ (self.now ≡ []) }
    {
        self.left.is_empty()
    }

    /// The bytes of the next fact, if they are all there. It takes no memory, and the same time
    /// whatever the bytes.
    pub fn next(&mut self) -> Option<&'a [u8]>
        ensures { MatchOption result
            ((self.new ≡ self.old) × ((body rest : List ℕ) → self.old ≢ framed body ++ rest))
            (λ body. self.old ≡ framed body.now ++ self.new) }
    {
        if self.left.len() < HEAD {
            return None;
        }
        let (head, behind) = self.left.split_at(HEAD);
        let length = length_of(head);
        if length > behind.len() as u64 {
            return None;
        }
        let (body, left) = behind.split_at(length as usize);
        self.left = left;
        Some(body)
    }
}
