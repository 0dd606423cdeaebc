mod tables;

use crate::asserts::same;
use crate::log::tables::{BEHIND_A_STEP, BEHIND_TREES, LOGS, PRINTED, SCANS, TABLES, TREES};
use mt_log::*;
use std::alloc::{AllocError, Global};
use std::process::Abort;
use std::str;
use std::test::Fail;

/// A log that is read and printed again.
fn printed(alloc: Global, log: &str) -> Result<Vec<u8>, LogError> {
    let log = read_log(alloc, log.as_bytes())?;
    match print_log(alloc, &log) {
        Ok(text) => Ok(text),
        Err(_) => Err(LogError::NoMemory),
    }
}

/// What a log is printed as when it was read, or its fault as its line and its text.
fn outcome(alloc: Global, log: &str) -> Result<String, AllocError> {
    match printed(alloc, log) {
        Ok(text) => String::from_str(alloc, str::from_utf8(&text).unwrap_or("no text")),
        Err(LogError::Bad { line, why }) => format!(in alloc; "{line} {why}"),
        Err(LogError::NoMemory) => Err(AllocError),
    }
}

/// Each row of a table comes out as it says, between these two texts.
fn expect_each(
    rt: &impl Abort,
    alloc: Global,
    before: &str,
    rows: &str,
    behind: &str,
) -> Result<(), Fail> {
    for row in rows.lines() {
        let Some((line, want)) = row.split_once(" -> ") else {
            return Err("a row has no arrow".into());
        };
        let log = format!(in alloc; "{before}{line}{behind}")?;
        let said = outcome(alloc, &log)?;
        same(rt, said.lines().last(), Some(want), row);
    }
    Ok(())
}

/// Each row of each table comes out as it says, between the texts before and after the table.
fn expect_tables(
    rt: &impl Abort,
    alloc: Global,
    tables: &[(&str, &str, &str)],
) -> Result<(), Fail> {
    for (before, rows, behind) in tables {
        expect_each(rt, alloc, before, rows, behind)?;
    }
    Ok(())
}

#[test]
fn a_line_is_read_or_refused(rt: HostRuntime) -> Result<(), Fail> {
    expect_tables(&rt, rt.alloc(), TABLES)
}

/// A log of these lines and what stands behind them is printed as the lines say, and that is printed as it is. A line that is
/// printed otherwise has what is printed of it after an arrow; what stands behind the lines is not printed.
fn expect_lines(rt: &impl Abort, alloc: Global, lines: &str, behind: &str) -> Result<(), Fail> {
    let (mut log, mut want) = (String::new(alloc), String::new(alloc));
    for row in lines.lines() {
        let (line, print) = row.split_once(" -> ").unwrap_or((row, row));
        log.push_str(line)?;
        log.push_str("\n")?;
        want.push_str(print)?;
        want.push_str("\n")?;
    }
    same(rt, outcome(alloc, &want)?.as_str(), &want, "printed again");
    log.push_str(behind)?;
    same(rt, outcome(alloc, &log)?.as_str(), &want, "the table");
    Ok(())
}

#[test]
fn logs_are_read_and_printed(rt: HostRuntime) -> Result<(), Fail> {
    for lines in LOGS {
        expect_lines(&rt, rt.alloc(), lines, "")?;
    }
    expect_lines(&rt, rt.alloc(), "mtlog 1", "\n#\n")
}

#[test]
fn a_log_has_16_trees_at_the_most(rt: HostRuntime) -> Result<(), Fail> {
    expect_each(&rt, rt.alloc(), TREES, BEHIND_TREES, "\nload t1 1")?;
    let stepped = format!(in rt.alloc(); "{TREES}load c8 1\n")?;
    expect_each(&rt, rt.alloc(), &stepped, BEHIND_A_STEP, "\nload t1 1")
}

/// This many equal lines, after the line that declares the tree `a`.
fn alike(alloc: Global, lines: u32, line: &str) -> Result<String, AllocError> {
    let mut log = String::from_str(alloc, "mtlog 1\ntree a range\n")?;
    for _line in 0..lines {
        log.push_str(line)?;
    }
    Ok(log)
}

#[test]
fn all_scans_have_a_million_steps_at_the_most(rt: HostRuntime) -> Result<(), Fail> {
    for (lines, line, rows) in SCANS {
        let before = alike(rt.alloc(), *lines, line)?;
        expect_each(&rt, rt.alloc(), &before, rows, "\nload a 2")?;
    }
    Ok(())
}

#[test]
fn each_line_is_printed_at_its_number(rt: HostRuntime) -> Result<(), Fail> {
    expect_lines(&rt, rt.alloc(), PRINTED, "# the end\n")
}
