//! Comments in the text of a proof: a line that begins with `c` is read as a step that does nothing.
ghost use Rattle.std.specs.Prelude.{[], ◌≡◌, ◌≢◌, ◌≤◌, ◌<◌, ◌++◌, ◌+◌, ℕ, List, true, false, length, take, drop, IfOk, OnOk, MatchResult};
ghost use Rattle.std.specs.List.{list_any};
ghost use Rattle.std.specs.Io.{ReadsAtMost};
ghost use Rattle.std.specs.Io.KnownBytes.{Consumes, Keeps, ReadConsumes};
ghost use Rattle.std.specs.Io.Buffered.{reader_remaining};
ghost use Rattle.lrat_forms.specs.Remaining.{uncommented_remaining};
ghost use Rattle.lrat_forms.specs.Comments.{is_mark, line_behind, uncommented, uncommented_known};
ghost use Rattle.lrat_forms.specs.PlainLines.{line_after, begins, is_plain, Gives, HasPassed};

use std::alloc::Global;
use std::io;
use std::io::{BufRead, BufReader, ErrorKind, Read};

/// What a comment is read as: a deletion of no clauses, so that it counts as a line and a step.
static NOTHING: [u8; 6] = *b"1 d 0\n";

/// How many bytes a read of the proof has room for.
const ROOM: usize = 65_536;

/// Where the next byte of a text stands.
#[derive(Clone, Copy, PartialEq, Eq)]
enum Line {
    Start,
    Inside,

    /// In a comment, behind which the next line starts.
    Comment,
}

/// Whether the byte begins a comment at a line's start.
fn is_mark(byte: u8) -> bool
    ensures { result ≡ is_mark byte }
{
    byte == b'c'
}

/// Where the byte behind this one stands, which is in no comment.
fn line_behind(byte: u8) -> Line
    ensures { result ≡ line_behind byte }
{
    if byte == b'\n' {
        Line::Start
    } else {
        Line::Inside
    }
}

/// Where the byte behind these stands, which are in no comment, and the first of which stands there.
fn line_after(line: Line, bytes: &[u8]) -> Line
    ensures { result ≡ line_after line bytes.now }
{
    if bytes.is_empty() {
        line
    } else {
        line_behind(bytes[bytes.len() - 1])
    }
}

/// Whether a byte is among these that begins a comment at a line's start. A text of steps has none:
/// it is gone through without a look at its lines.
fn has_mark(bytes: &[u8]) -> bool
    ensures { result ≡ list_any is_mark bytes.now }
{
    let mut has = false;
    for byte in bytes {
        has |= is_mark(*byte);
    }
    has
}

/// Whether the byte begins a comment, where it stands there.
fn begins(line: Line, byte: u8) -> bool
    ensures { result ≡ begins line byte }
{
    line == Line::Start && is_mark(byte)
}

/// How many of these bytes come before the first comment.
fn before_mark(line: Line, bytes: &[u8]) -> usize
    ensures bound { result ≤ length bytes.now }
    ensures plain { is_plain line (take result bytes.now) ≡ true }
{
    let mut at_byte = line;
    for at in 0..bytes.len() {
        if begins(at_byte, bytes[at]) {
            return at;
        }
        at_byte = line_behind(bytes[at]);
    }
    bytes.len()
}

/// How many of these bytes come before the first comment: all, where none can begin one.
fn plain_count(line: Line, bytes: &[u8]) -> usize
    ensures bound { result ≤ length bytes.now }
    ensures plain { is_plain line (take result bytes.now) ≡ true }
{
    if has_mark(bytes) {
        before_mark(line, bytes)
    } else {
        bytes.len()
    }
}

/// How many of these bytes of a comment come up to the end of its line, with that, and where the byte
/// behind them stands.
fn comment_count(bytes: &[u8]) -> (usize, Line)
    ensures bound { result.0 ≤ length bytes.now }
    ensures passes { (rest : List ℕ) → uncommented Line.Comment (bytes.now ++ rest) ≡ uncommented result.1 (drop result.0 bytes.now ++ rest) }
{
    for at in 0..bytes.len() {
        if bytes[at] == b'\n' {
            return (at + 1, Line::Start);
        }
    }
    (bytes.len(), Line::Comment)
}

/// Passes over what a reader shows of a comment; where its next byte stands.
fn pass_shown<B: BufRead>(reader: &mut B) -> io::Result<Line>
    ensures { MatchResult result
        (λ line. HasPassed (B.remaining reader.old) (B.remaining reader.new) line)
        (λ _. Keeps (B.remaining reader.old) (B.remaining reader.new)) }
{
    let shown = reader.fill_buf()?;
    if shown.is_empty() {
        return Ok(Line::Start);
    }
    let (count, line) = comment_count(shown);
    reader.consume(count);
    Ok(line)
}

/// Gives what a reader shows before the next comment, as far as there is room, of a text whose next
/// byte stands there, and in no comment; how many bytes, and where the byte behind them stands.
fn give_shown<B: BufRead>(reader: &mut B, line: Line, buf: &mut [u8]) -> io::Result<(usize, Line)>
    requires { line ≢ Line.Comment }
    ensures { MatchResult result
        (λ given. Gives (B.remaining reader.old) (B.remaining reader.new) line given.0 given.1 buf.new)
        (λ _. Keeps (B.remaining reader.old) (B.remaining reader.new)) }
{
    let shown = reader.fill_buf()?;
    let count = plain_count(line, shown).min(buf.len());
    let bytes = &shown[..count];
    buf[..count].copy_from_slice(bytes);
    let behind = line_after(line, bytes);
    reader.consume(count);
    Ok((count, behind))
}

/// Reads a text, and gives it with each comment as a step that does nothing.
#[derive(Drop)]
pub struct Uncommented<I> {
    inner: BufReader<I>,
    line: Line,

    /// What is still to be given for a comment.
    owed: &'static [u8],
}

impl<I: Read + Drop> Uncommented<I> {
    /// What a text is read as of which nothing was read.
    pub fn of(alloc: Global, inner: I) -> io::Result<Uncommented<I>>
        ensures { IfOk result (λ text. uncommented_remaining I.remaining text ≡ uncommented_known Line.Start (I.remaining inner)) }
    {
        Ok(Uncommented {
            inner: BufReader::with_capacity(alloc, ROOM, inner)?,
            line: Line::Start,
            owed: &[],
        })
    }
}

impl<I: Read> Uncommented<I> {
    /// The reader of the text as it is.
    pub fn inner(&self) -> &I {
        self.inner.get_ref()
    }

    /// Passes over the rest of a comment.
    fn pass_comment(&mut self) -> io::Result<()>
        requires { self.old.line ≡ Line.Comment }
        ensures keeps { Keeps (uncommented_known self.old.line (reader_remaining I.remaining self.old.inner)) (uncommented_known self.new.line (reader_remaining I.remaining self.new.inner)) }
        ensures owed { self.new.owed ≡ self.old.owed }
        ensures passed { OnOk result (self.new.line ≢ Line.Comment) }
    {
        for _ in 0..u64::MAX {
            self.line = pass_shown(&mut self.inner)?;
            if self.line != Line::Comment {
                return Ok(());
            }
        }
        Err(io::Error::from(ErrorKind::InvalidData)) // no text is so long
    }

    /// Gives what is owed for a comment, as far as there is room.
    fn give_owed(&mut self, buf: &mut [u8]) -> usize
        requires { self.old.owed.now ≢ [] }
        ensures bound { result ≤ length buf.new }
        ensures bytes { Consumes (uncommented_remaining I.remaining self.old) (uncommented_remaining I.remaining self.new) (take result buf.new) }
        ensures some { 0 < length buf.new → 0 < result }
    {
        let count = buf.len().min(self.owed.len());
        let (given, rest) = self.owed.split_at(count);
        buf[..count].copy_from_slice(given);
        self.owed = rest;
        count
    }

    /// Gives the next byte, or what is owed for the comment that it begins.
    fn read_byte(&mut self, buf: &mut [u8]) -> io::Result<usize>
        requires owed { self.old.owed.now ≡ [] }
        requires line { self.old.line ≢ Line.Comment }
        requires room { 0 < length buf.old }
        ensures bound { ReadsAtMost result buf.new }
        ensures bytes { ReadConsumes (uncommented_remaining I.remaining self.old) (uncommented_remaining I.remaining self.new) result buf.new }
    {
        let mut byte = [0u8; 1];
        if self.inner.read(&mut byte)? == 0 {
            return Ok(0);
        }
        if begins(self.line, byte[0]) {
            self.line = Line::Comment;
            self.owed = &NOTHING;
            return Ok(self.give_owed(buf));
        }
        self.line = line_behind(byte[0]);
        buf[0] = byte[0];
        Ok(1)
    }

    /// Passes over a comment that has begun, and gives what stands before the next one; where that is
    /// nothing, it begins here, or the text ends.
    fn read_lines(&mut self, buf: &mut [u8]) -> io::Result<usize>
        requires { self.old.owed.now ≡ [] }
        ensures bound { ReadsAtMost result buf.new }
        ensures bytes { ReadConsumes (uncommented_remaining I.remaining self.old) (uncommented_remaining I.remaining self.new) result buf.new }
    {
        if buf.is_empty() {
            return Ok(0);
        }
        if self.line == Line::Comment {
            self.pass_comment()?;
        }
        let (count, line) = give_shown(&mut self.inner, self.line, buf)?;
        self.line = line;
        if count == 0 {
            return self.read_byte(buf);
        }
        Ok(count)
    }
}

impl<I: Read> Read for Uncommented<I> {
    ghost use Rattle.lrat_forms.specs.Remaining.{uncommented_remaining};

    ghost remaining = { uncommented_remaining I.remaining };

    fn read(&mut self, buf: &mut [u8]) -> io::Result<usize> {
        if self.owed.is_empty() {
            self.read_lines(buf)
        } else {
            Ok(self.give_owed(buf))
        }
    }
}
