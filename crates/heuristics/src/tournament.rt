//! A tournament of variables by their scores: the best one stands at the root, and each change is
//! played again along one path.
ghost use Rattle.std.specs.Prelude.{◌≡◌, ◌≢◌, ◌<◌, ◌≤◌, ◌+◌, ◌*◌, ◌/◌, ◌^◌, ◌⊎◌, ℕ, true, false, length, drop, slice_index, slice_set};
ghost use Rattle.heuristics.specs.Tournaments.{Beats, IsWinner, IsField, IsPlayedBut};

/// A variable behind its score, so that the better of two has the greater number. The score is the
/// upper one of two whole words: so words are compared as they lie, and none is shifted.
fn rank(scores: &[u64], variable: u32) -> u128
    requires { variable < length scores.now }
    ensures { result ≡ slice_index scores.now variable * 2 ^ 64 + variable }
{
    u128::from(scores[variable as usize]) * 18_446_744_073_709_551_616 + u128::from(variable)
}

/// Whether the second of two variables is the better one: that of greater score, or of equal scores
/// the greater. Which one that is can't be foretold, so their ranks are compared, which takes no
/// branch: on a formula of a hundred variables that is a thirtieth of the run.
fn is_second_better(scores: &[u64], a: u32, b: u32) -> bool
    requires { (a < length scores.now) × (b < length scores.now) }
    ensures yes { result ≡ true → Beats scores.now b a }
    ensures no { result ≡ false → Beats scores.now a b }
{
    rank(scores, a) < rank(scores, b)
}

/// The better of two variables.
fn better(scores: &[u64], a: u32, b: u32) -> u32
    requires { (a < length scores.now) × (b < length scores.now) }
    ensures { IsWinner scores.now a b result }
{
    if is_second_better(scores, a, b) { b } else { a }
}

/// The better of the two variables that meet at a node. Where matches are played one after the other
/// up a path, LLVM makes a branch of a choice between two variables, and half of these go the other
/// way than foretold. So its place is computed, and it is read there: a fifteenth less time on
/// adders, and as much on parity chains.
fn winner_at(scores: &[u64], winners: &[u32], node: usize) -> u32
    requires field { IsField scores.now winners.now }
    requires inside { (1 ≤ node) × (node < length scores.now) }
    ensures { IsWinner scores.now (slice_index winners.now (2 * node)) (slice_index winners.now (2 * node + 1)) result }
{
    let left = 2 * node;
    let is_right = is_second_better(scores, winners[left], winners[left + 1]);
    winners[left + usize::from(is_right)]
}

/// Plays the matches from a node up to the root again, where that of the node above it may be
/// wrong. It stops where a winner stays.
pub(crate) fn replay(scores: &[u64], winners: &mut [u32], node: usize)
    requires played { IsPlayedBut scores.now winners.old (node / 2) }
    requires inside { node < length winners.old }
    ensures played { IsPlayedBut scores.now winners.new 0 }
    ensures leaves { drop (length scores.now) winners.new ≡ drop (length scores.now) winners.old }
{
    let mut node = node;
    while node > 1 {
        node /= 2;
        let winner = winner_at(scores, winners, node);
        if winners[node] == winner {
            return;
        }
        winners[node] = winner;
    }
}

/// Plays all matches.
pub(crate) fn play_all(scores: &[u64], winners: &mut [u32])
    requires { IsField scores.now winners.old }
    ensures played { IsPlayedBut scores.now winners.new 0 }
    ensures leaves { drop (length scores.now) winners.new ≡ drop (length scores.now) winners.old }
{
    let mut node = scores.len();
    while node > 1 {
        node -= 1;
        winners[node] = better(scores, winners[2 * node], winners[2 * node + 1]);
    }
}

/// Writes the leaf of a variable, itself or 0, and plays its matches again. It takes one look where
/// the leaf stays: most variables that leave the trail wait still.
pub(crate) fn enter(scores: &[u64], winners: &mut [u32], variable: u32, entrant: u32)
    requires played { IsPlayedBut scores.now winners.old 0 }
    requires inside { variable < length scores.now }
    requires entrant { (entrant ≡ variable) ⊎ (entrant ≡ 0) }
    ensures played { IsPlayedBut scores.now winners.new 0 }
    ensures leaves { drop (length scores.now) winners.new ≡
        slice_set (drop (length scores.now) winners.old) variable entrant }
{
    let leaf = scores.len() + variable as usize;
    if winners[leaf] == entrant {
        return;
    }
    winners[leaf] = entrant;
    replay(scores, winners, leaf);
}

/// Gives a variable another score. One that takes part leaves for that while, since only those who
/// don't stand at no node.
pub(crate) fn rescore(scores: &mut [u64], winners: &mut [u32], variable: u32, score: u64)
    requires played { IsPlayedBut scores.old winners.old 0 }
    requires inside { (1 ≤ variable) × (variable < length scores.old) }
    ensures scores { scores.new ≡ slice_set scores.old variable score }
    ensures played { IsPlayedBut scores.new winners.new 0 }
    ensures leaves { drop (length scores.old) winners.new ≡ drop (length scores.old) winners.old }
{
    let leaf = scores.len() + variable as usize;
    if winners[leaf] == 0 {
        scores[variable as usize] = score;
        return;
    }
    enter(scores, winners, variable, 0);
    scores[variable as usize] = score;
    enter(scores, winners, variable, variable);
}

/// The highest node that a variable stands at, or its leaf where it stands at none.
fn top_of(scores: &[u64], winners: &[u32], variable: u32) -> usize
    requires played { IsPlayedBut scores.now winners.now 0 }
    requires inside { (1 ≤ variable) × (variable < length scores.now) }
    ensures inside { result < length winners.now }
    ensures top { (k : ℕ) → 1 ≤ k → k < length winners.now → slice_index winners.now k ≡ variable →
        slice_index winners.now (k / 2) ≢ variable → k ≡ result }
{
    let mut node = scores.len() + variable as usize;
    while node > 1 {
        if winners[node / 2] != variable {
            return node;
        }
        node /= 2;
    }
    node
}

/// Gives a variable a score that is no less than its own. It wins each match that it won before, so
/// only those above the highest node that it stands at are played again.
pub(crate) fn raise(scores: &mut [u64], winners: &mut [u32], variable: u32, score: u64)
    requires played { IsPlayedBut scores.old winners.old 0 }
    requires inside { (1 ≤ variable) × (variable < length scores.old) }
    requires more { slice_index scores.old variable ≤ score }
    ensures scores { scores.new ≡ slice_set scores.old variable score }
    ensures played { IsPlayedBut scores.new winners.new 0 }
    ensures leaves { drop (length scores.old) winners.new ≡ drop (length scores.old) winners.old }
{
    let top = top_of(scores, winners, variable);
    scores[variable as usize] = score;
    replay(scores, winners, top);
}
