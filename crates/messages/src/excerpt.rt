//! The piece of a text around a place.
ghost use Rattle.std.specs.Prelude.{◌≡◌, ℕ, ◌≤◌, List, [], ◌∷◌, ◌++◌, IsTrue};

use crate::line_counts::line_feeds;
use arrayvec::ArrayVec;
use cnf::Place;

/// How many bytes are kept: more than are shown, so that a word behind the place can be told.
const ROOM: usize = 128;

/// How many columns before the place are kept.
const BEFORE: u64 = 40;

/// The piece of a text around a place, which is found as the text comes in pieces: of the place's
/// line at most 40 columns before the place, and what comes behind them, 128 bytes in all.
#[derive(Drop)]
pub struct Excerpt {
    /// How many lines are still to come before the place's.
    lines: u64,
    /// How many columns of that line are still to come before those that are kept.
    columns: u64,
    is_cut: bool,
    /// How many columns are kept before the place.
    before: usize,
    bytes: ArrayVec<u8, ROOM>,
    ghost near: { before ≤ 40 },
}

impl Excerpt {
    ghost use Rattle.messages.specs.Excerpts.{kept_around, kept_with};

    /// Around this place of a text of which nothing has come.
    pub fn around(place: Place) -> Excerpt
        ensures { (text : List ℕ) →
            kept_with result text ≡ kept_around place.line place.column text }
    {
        let column = place.column.saturating_sub(1);
        let columns = column.saturating_sub(BEFORE);
        Excerpt {
            lines: place.line.saturating_sub(1),
            columns,
            is_cut: columns > 0,
            before: column.min(BEFORE) as usize,
            bytes: ArrayVec::new(),
        }
    }

    /// Takes the next byte of the text.
    fn take(&mut self, byte: u8)
        ensures { (more : List ℕ) → kept_with self.new more ≡ kept_with self.old (byte ∷ more) }
    {
        if self.lines > 0 {
            self.lines -= u64::from(byte == b'\n');
            return;
        }
        if self.columns > 0 {
            self.columns -= 1;
            return;
        }
        let _ = self.bytes.try_push(byte);
    }

    /// Takes the next piece of the text. Most are of lines before the place's, and only their line
    /// feeds are counted.
    pub fn add(&mut self, piece: &[u8])
        ensures { (more : List ℕ) →
            kept_with self.new more ≡ kept_with self.old (piece.now ++ more) }
    {
        let lines = line_feeds(piece);
        if lines < self.lines {
            self.lines -= lines;
            return;
        }
        for byte in piece {
            self.take(*byte);
        }
    }

    /// Whether no further byte will be kept.
    pub fn is_full(&self) -> bool
        ensures { IsTrue result →
            (more : List ℕ) → kept_with self.now more ≡ kept_with self.now [] }
    {
        self.bytes.is_full()
    }

    /// Whether the line begins before what is kept of it.
    pub(crate) fn is_cut(&self) -> bool {
        self.is_cut
    }

    /// How many columns are kept before the place, at most 40.
    pub(crate) fn before(&self) -> usize
        ensures { result ≤ 40 }
    {
        self.before
    }

    /// What is kept of the place's line.
    pub(crate) fn line(&self) -> &[u8] {
        let bytes = self.bytes.as_slice();
        match bytes.iter().position(|byte| *byte == b'\n') {
            Some(end) => &bytes[..end],
            None => bytes,
        }
    }

    /// What is kept from the place on.
    pub(crate) fn behind(&self) -> &[u8] {
        let bytes = self.bytes.as_slice();
        &bytes[self.before.min(bytes.len())..]
    }

    /// The word at the place, or nothing at a line's end. It is cut at the end of what is kept.
    pub(crate) fn word(&self) -> &[u8] {
        let bytes = self.behind();
        match bytes.iter().position(|byte| is_blank(*byte)) {
            Some(end) => &bytes[..end],
            None => bytes,
        }
    }
}

/// Whether words end at this byte.
fn is_blank(byte: u8) -> bool {
    matches!(byte, b' ' | b'\t' | b'\r' | b'\n')
}
