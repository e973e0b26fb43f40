//! Reads and writes of tables at places that may lie outside.

/// The item at a place, or `or` where there is none.
#[inline]
pub(crate) fn at<T: Copy>(items: &[T], place: usize, or: T) -> T {
    if place < items.len() {
        items[place]
    } else {
        or
    }
}

/// Puts an item at a place, if there is one.
#[inline]
pub(crate) fn put<T: Copy>(items: &mut [T], place: usize, item: T) {
    if place < items.len() {
        items[place] = item;
    }
}
