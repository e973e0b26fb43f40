//! A proof that would be written over the answer.
use crate::command_lines::run;
use std::fs;
use std::rt::Files;
use std::sync::Wait;
use std::test::Fail;
use std::thread::Threads;
use std::time::Clock;
use test_console::fake::Fake;
use test_console::{Wanted, is_printed, path_of};
use test_samples::FOUR;

/// Whether `solve` refuses to write the proof to this file, where the answer goes, and leaves it.
fn keeps_answer<R: Files + AllocGlobal + Threads + Wait + Clock + Sync>(
    rt: &R,
    formula: &str,
    output: &str,
) -> Result<bool, Fail> {
    let words = ["cubesat", "solve", "--proof", output, formula];
    let wanted = Wanted {
        status: 1,
        answer: "",
        faults: "cubesat: the proof would be written over the answer, which goes to the same file\n",
    };
    let is_said = is_printed(&run(rt, &words), &wanted);
    let text = fs::read(rt, output)?;
    Ok(is_said && text.as_slice() == b"answers".as_slice())
}

#[test]
fn the_answer_is_not_written_over(rt: HostRuntime) -> Result<(), Fail> {
    let formula = path_of(&rt, "same_output.cnf")?;
    let output = path_of(&rt, "same_output")?;
    fs::write(&rt, formula.as_str(), FOUR)?;
    fs::write(&rt, output.as_str(), "answers")?;
    let fake = Fake::printing_to(&rt, &rt, output.as_str());
    assert!(rt; keeps_answer(&fake, formula.as_str(), output.as_str())?);
    fs::remove_file(&rt, output.as_str())?;
    fs::remove_file(&rt, formula.as_str())?;
    Ok(())
}

/// Whether a device where the answer goes is refused for the proof.
fn is_for_answer<R: Files + AllocGlobal + Threads + Wait + Clock + Sync>(
    rt: &R,
    formula: &str,
    device: &str,
) -> bool {
    let words = ["cubesat", "solve", "--proof", device, formula];
    let printed = run(rt, &words);
    printed.status == 1
        && printed
            .faults
            .starts_with(b"cubesat: the proof would be written over")
}

/// Devices that stand for standard output, and whether the proof may go there too: what goes to the
/// null device is lost in any case.
static DEVICES: [(&str, bool); 2] = [("/dev/zero", false), ("/dev/null", true)];

#[test]
fn the_answer_is_not_mixed(rt: HostRuntime) -> Result<(), Fail> {
    let formula = path_of(&rt, "mixed_output.cnf")?;
    fs::write(&rt, formula.as_str(), FOUR)?;
    for (device, is_free) in &DEVICES {
        let fake = Fake::printing_to(&rt, &rt, device);
        assert!(rt;
            is_for_answer(&fake, formula.as_str(), device) != *is_free,
            "{device}"
        );
    }
    fs::remove_file(&rt, formula.as_str())?;
    Ok(())
}
