//! Small numbers for the search, so that each thing comes after a few conflicts.
ghost use Rattle.std.specs.Prelude.{◌≡◌};

use heuristics::Constants;

/// Steps that double in restarting mode and grow by a half in stable mode, and are divided by 4 from
/// 256 on; a window of three glues, whose sum is to be above four average ones, and restarts two
/// conflicts apart; rounds that end with the conflicts 2, 6, 12 and 20.
pub fn small() -> Constants
    ensures { result.window ≡ 3 }
{
    Constants {
        first_step: 64,
        restarting_growth: 1,
        stable_growth: 2,
        greatest_step: 256,
        divisor: 4,
        window: 3,
        above: 4,
        apart: 2,
        mode_length: 4,
        round_length: 2,
        kept_glue: 2,
    }
}

#[test]
fn default_numbers(rt: HostRuntime) {
    let numbers = Constants::default();
    assert!(rt; numbers.first_step == 65_536);
    assert!(rt; numbers.restarting_growth == 5 && numbers.stable_growth == 20);
    assert!(rt; numbers.greatest_step == 72_057_594_037_927_936);
    assert!(rt; numbers.divisor == 1_099_511_627_776);
    assert!(rt; numbers.window == 32 && numbers.above == 35 && numbers.apart == 5);
    assert!(rt; numbers.mode_length == 1000 && numbers.round_length == 300);
    assert!(rt; numbers.kept_glue == 3);
}
