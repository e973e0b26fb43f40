//! Numbers of the focused search by which small formulas are divided.
use heuristics::Constants;

/// Numbers by which stable mode begins with the second conflict of a search, since what it decides says
/// whether a formula is divided.
pub fn soon_stable() -> Constants {
    Constants {
        first_step: 65_536,
        restarting_growth: 5,
        stable_growth: 20,
        greatest_step: 1 << 56,
        divisor: 1 << 40,
        window: 32,
        above: 35,
        apart: 5,
        mode_length: 1,
        round_length: 1,
        kept_glue: 3,
    }
}
