//! What a proof is, by its first bytes.
ghost use Rattle.std.specs.Prelude.{◌≡◌};
ghost use Rattle.std.specs.List.{list_any};
ghost use Rattle.lrat_forms.specs.Forms.{is_foreign, is_binary};

/// How many bytes tell which form a proof has.
pub(crate) const FIRST: usize = 64;

/// Whether no text of a proof has this byte.
fn is_foreign(byte: u8) -> bool
    ensures { result ≡ is_foreign byte }
{
    byte > b'~' || byte < b' ' && byte != b'\t' && byte != b'\n' && byte != b'\r'
}

/// Whether one of these bytes is in no text of a proof.
fn has_foreign(bytes: &[u8]) -> bool
    ensures { result ≡ list_any is_foreign bytes.now }
{
    for byte in bytes {
        if is_foreign(*byte) {
            return true;
        }
    }
    false
}

/// Whether a proof with these first bytes is in binary: there each step begins with an `a` or a
/// `d`, and numbers are bytes of all kinds.
pub(crate) fn is_binary(first: &[u8]) -> bool
    ensures { result ≡ is_binary first.now }
{
    match first.split_first() {
        Some((byte, rest)) => (*byte == b'a' || *byte == b'd') && has_foreign(rest),
        None => false,
    }
}
