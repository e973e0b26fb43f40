//! What a simplification says, and is asked, while it runs.

/// Watches a simplification. It is asked before the first try of a variable, and then before each
/// 1024th one.
pub trait Watcher {
    /// So many literals were looked at so far.
    fn looked_at(&self, literals: u64);

    /// Whether the simplification is to stop. It then fails as for want of memory.
    fn stops(&self) -> bool;
}
