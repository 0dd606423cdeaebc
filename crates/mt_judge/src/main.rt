//! Whether a transcript is that of a run of a log, where it is wrong if it is none, and how many of its reads met a call. It
//! reads what `mtreplay verify` reads.
#![tactic(auto)]

mod answers;
mod causes;
mod cuts;
mod failures;
mod forms;
mod histories;
mod judging;
mod lanes;
mod listings;
mod maps;
mod orders;
mod tallies;
mod trees;

use crate::answers::answer_to;
use crate::cuts::rows_of;
use crate::failures::JudgeFailure;
use std::io::{ErrorKind, Read, Write};
use std::process::ExitCode;
use std::rt::Env;
use std::{env, io};

/// The greatest number of bytes of an input.
const LONGEST: u64 = 67_108_864;

/// What fails, where that is not for lack of memory.
fn unless_memory(error: &io::Error, other: JudgeFailure) -> JudgeFailure {
    match error.kind() {
        ErrorKind::OutOfMemory => JudgeFailure::NoMemory,
        _ => other,
    }
}

/// The words after the program's name. Where one is no text, they ask for nothing.
fn words_of(rt: &(impl Env + AllocGlobal)) -> Result<Vec<String>, JudgeFailure> {
    let words = env::args(rt).map_err(|error| unless_memory(&error, JudgeFailure::Usage))?;
    words
        .skip(1)
        .collect(rt.alloc())
        .map_err(|_| JudgeFailure::NoMemory)
}

/// The bytes of the input, which are at most `LONGEST`.
fn read_input(rt: &(impl Input + AllocGlobal)) -> Result<Vec<u8>, JudgeFailure> {
    let mut bytes = Vec::new(rt.alloc());
    match rt.reader().take(LONGEST + 1).read_to_end(&mut bytes) {
        Ok(_) if bytes.len() as u64 > LONGEST => Err(JudgeFailure::TooLong),
        Ok(_) => Ok(bytes),
        Err(error) => Err(unless_memory(&error, JudgeFailure::ReadFault)),
    }
}

/// Does what the words say, and returns the status to end with.
fn run(rt: &(impl Env + Input + Print + AllocGlobal)) -> Result<u8, JudgeFailure> {
    let words = words_of(rt)?;
    // Words that ask for nothing are told before any input is read.
    rows_of(&words).ok_or(JudgeFailure::Usage)?;
    let told = answer_to(rt.alloc(), &words, &read_input(rt)?)?;
    match io::writer(rt).write_all(told.text.as_str().as_bytes()) {
        Ok(()) => Ok(told.status),
        Err(_) => Err(JudgeFailure::WriteFault),
    }
}

fn main(rt: HostRuntime) -> io::Result<ExitCode> {
    match run(&rt) {
        Ok(status) => Ok(ExitCode::from(status)),
        Err(failure) => {
            eprintln!(rt; "mt_judge: {failure}")?;
            Ok(ExitCode::from(2))
        }
    }
}
