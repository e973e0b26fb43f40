//! The program `cubesat`.
#![tactic(auto)]

use cubesat::{Console, Screen, SystemLocks, command_in_folders};
use std::alloc::{AllocError, Global};
use std::fs::{File, Files, OpenOptions};
use std::io::IsTerminal;
use std::os::fd::AsRawFd;
use std::process::ExitCode;
use std::rt::Env;
use std::{env, fs, io};

/// The file that stands in for a standard file that is closed.
const NOTHING: &str = "/dev/null";

/// The number of standard input.
const INPUT: i32 = 0;

/// Takes the number of standard input where that is closed. It can't be read then.
fn held_input<R: Files<File = File>>(rt: &R) -> Option<File> {
    let file = OpenOptions::new().write(true).open(rt, NOTHING).ok()?;
    if file.as_raw_fd() == INPUT {
        Some(file)
    } else {
        None
    }
}

/// Takes a number that is free, the least one. The file can't be written.
fn held_output<R: Files<File = File>>(rt: &R) -> Option<File> {
    fs::open(rt, NOTHING).ok()
}

/// The words of the command line.
fn words<R: Env + AllocGlobal>(rt: &R, alloc: Global) -> io::Result<Vec<String>> {
    Ok(env::args(rt)?.collect(alloc)?)
}

/// The words as borrowed text.
fn borrowed<'a>(alloc: Global, words: &'a [String]) -> Result<Vec<&'a str>, AllocError> {
    words.iter().map(|word| word.as_str()).collect(alloc)
}

/// What is said of a command line for which memory doesn't suffice.
const NO_MEMORY: &str = "fault 52\nc the command line: not enough memory; free some and try again";

/// What is said of a command line that can't be read: want of memory has its fault also here.
fn line_of(error: &io::Error) -> &'static str {
    if error.kind() == io::ErrorKind::OutOfMemory {
        NO_MEMORY
    } else {
        "cubesat: the command line isn't text"
    }
}

fn main(rt: HostRuntime) -> ExitCode {
    // The least number that is free is that of the next file: where a standard file is closed, the
    // proof would get its number, and the answer would go into the proof. So what is closed is taken
    // before, by a file that stays open, and can't be used for what the standard file is for.
    let _input = held_input(&rt);
    let _outputs = [held_output(&rt), held_output(&rt)];
    let alloc = rt.alloc();
    let words = match words(&rt, alloc) {
        Ok(words) => words,
        Err(error) => {
            let _ = eprintln!(rt; "{}", line_of(&error));
            return ExitCode::from(1);
        }
    };
    let Ok(words) = borrowed(alloc, &words) else {
        let _ = eprintln!(rt; "{NO_MEMORY}");
        return ExitCode::from(1);
    };
    let faults = rt.stderr();
    let screen = if faults.is_terminal() {
        Screen::Terminal
    } else {
        Screen::Stream
    };
    let mut console = Console {
        input: rt.stdin(),
        answer: rt.stdout(),
        faults,
        screen,
    };
    ExitCode::from(command_in_folders(&rt, alloc, &words, &mut console, &SystemLocks))
}
