//! The pool: its opening and its closing.
ghost use Rattle.std.specs.Prelude.{◌≡◌, ◌≤◌, IfOk, List};
ghost use Rattle.theory.specs.Ledger.{IsFit, Ledger};
ghost use Rattle.theory.specs.Order.{IsAllOnce, IsInOrder};
ghost use Rattle.pool.specs.Pools.{AreNew, AreAllOf, AreLedgersOf};

use crate::closing::{by_number, drain_all, gather, take_apart};
use crate::hand::Hand;
use crate::opening;
use crate::refusal::PoolRefusal;
use crate::seat::WordSeat;
use kernel::Cube;
use std::alloc::{AllocError, Global};
use std::marker::Model;
use std::snapshot::Snapshot;

/// What a pool holds once all its hands are home.
#[derive(Drop)]
pub struct Closing {
    /// The cubes that no hand got, by the number of the hand in whose deque they are, each deque
    /// from its front.
    pub left: Vec<Cube>,

    /// The least place that was offered.
    pub least: Option<u64>,

    /// How many cubes are still to be done: 1, and one for each `more`, less one for each `less`,
    /// modulo 2^64.
    pub undone: u64,
}

/// What stays behind where the hands of a pool go out: it closes the pool once they are home.
#[derive(Drop)]
pub struct Pool {
    hands: usize,
    // for contracts alone
    root: Snapshot<Cube>,
    words: WordSeat,
}

impl Model for Pool {
    ghost use Rattle.std.specs.Prelude.{◌≡◌, ◌≤◌};
    ghost use Rattle.pool.specs.SeatNotes.{first_notes};
    ghost use Rattle.pool.specs.Pools.{PoolView};

    ghost Value = { PoolView };

    ghost view = { λ p. record { hands = p.hands; table = p.words.table; root = p.root.value } };

    ghost invariant = { λ p. (1 ≤ p.hands) × (p.words.notes ≡ first_notes p.hands) };
}

/// A pool of 1 to 16 hands for cubes over this many variables, and its hands in the order of their
/// numbers, with empty ledgers. The root, a fit cube, lies in the deque of hand 0. It takes time
/// and memory by the square of the number of hands. `NotOpened` where the table of the shared words
/// is refused, `NoMemory` where any other request for memory is; all is let go then.
pub fn open(
    alloc: Global,
    hands: usize,
    vars: u32,
    root: Cube,
) -> Result<(Pool, Vec<Hand>), PoolRefusal>
    requires count { (1 ≤ hands) × (hands ≤ 16) }
    requires fit { IsFit vars root }
    ensures count { IfOk result (λ r. r.0.hands ≡ hands) }
    ensures root { IfOk result (λ r. r.0.root ≡ root) }
    ensures hands { IfOk result (λ r. AreNew r.0 vars r.1.items) }
{
    let remembered = Snapshot::of(&root);
    let mut words = WordSeat::open(alloc)?;
    let mut owners = opening::owners(alloc, hands, vars)?;
    let rows = opening::rows(alloc, &mut owners, vars)?;
    let mut all = opening::hands(alloc, &mut words, owners, rows, vars)?;
    let first = &mut all[0];
    let Ok(()) = first.put_root(root) else {
        return Err(PoolRefusal::NoMemory);
    };
    let pool = Pool {
        hands,
        root: remembered,
        words,
    };
    Ok((pool, all))
}

impl Pool {
    /// Takes all hands that `open` gave, each once, in any order, and says what is left. Each cube
    /// is there once: for each deque, what the hands got from it, in some order that keeps each
    /// hand's own, and then what is left in it, is what was put into it. All calls on the shared
    /// words have one order that replays, and `least` and `undone` are what it ends with. It waits
    /// for nothing, and takes time by the cubes that are left and the square of the number of
    /// hands. It fails where a request for memory is refused; all is let go then.
    pub fn close(self, hands: Vec<Hand>) -> Result<Closing, AllocError>
        requires { AreAllOf self hands.items }
        ensures some { IfOk result (λ _. 1 ≤ self.hands) }
        ensures once { IfOk result (λ c. (ledgers : List Ledger) → AreLedgersOf hands.items ledgers → IsAllOnce self.root ledgers c.left.items) }
        ensures order { IfOk result (λ c. (ledgers : List Ledger) → AreLedgersOf hands.items ledgers → IsInOrder ledgers c.least c.undone) }
    {
        let Pool {
            hands: _,
            root: _,
            mut words,
        } = self;
        let alloc = *hands.allocator();
        let sorted = by_number(alloc, hands)?;
        let (mut owners, rows) = take_apart(alloc, &mut words, sorted)?;
        gather(&mut owners, rows);
        let left = drain_all(alloc, owners)?;
        let (least, undone) = words.ends();
        Ok(Closing {
            left,
            least,
            undone,
        })
    }
}
