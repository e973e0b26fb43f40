//! The number of line feeds in a piece of a text.
ghost use Rattle.std.specs.Prelude.{◌≡◌, ◌≤◌, length};
ghost use Rattle.messages.specs.Lines.{line_feeds};

/// So many bytes have no more line feeds than a byte counts.
const FEW: usize = 255;

/// How many line feeds a short piece has. In a count of one byte the compiler adds up sixteen bytes
/// of the piece at a time.
fn few_line_feeds(piece: &[u8]) -> u8
    requires { length piece.now ≤ 255 }
    ensures { result ≡ line_feeds piece.now }
{
    let mut count = 0;
    for byte in piece {
        count += u8::from(*byte == b'\n');
    }
    count
}

/// How many line feeds the piece has. To count them takes a fraction of the time in which `Excerpt`
/// would take the piece byte by byte.
pub fn line_feeds(piece: &[u8]) -> u64
    ensures { result ≡ line_feeds piece.now }
{
    let mut count = 0;
    let mut at = 0;
    while at < piece.len() {
        let end = (at + FEW).min(piece.len());
        count += u64::from(few_line_feeds(&piece[at..end]));
        at = end;
    }
    count
}
