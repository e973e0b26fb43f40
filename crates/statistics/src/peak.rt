//! How much memory the process had at most.

use std::fs;
use std::io::Read;
use std::rt::Files;

/// Where Linux tells it.
const STATUS: &str = "/proc/self/status";

/// How much of that is read: more than it has.
const ENOUGH: usize = 4096;

/// The number that a text begins with.
fn first_number(text: &str) -> Option<u64> {
    text.split_whitespace().next()?.parse::<u64>().ok()
}

/// The number of KiB in the line `VmHWM: .. kB`.
fn peak_in(text: &[u8]) -> Option<u64> {
    let text = str::from_utf8(text).ok()?;
    for line in text.lines() {
        if let Some(rest) = line.strip_prefix("VmHWM:") {
            return first_number(rest);
        }
    }
    None
}

/// The most memory that the process had so far, in KiB, where the system tells it.
pub(crate) fn peak_memory<R: Files>(rt: &R) -> Option<u64> {
    let mut file = fs::open(rt, STATUS).ok()?;
    let mut text = [0u8; ENOUGH];
    let count = file.read(&mut text).ok()?;
    peak_in(&text[..count])
}
