//! `omf-cases`: runs the cases on the standard input, one on each line, and prints those that go wrong. It ends with an error if there are any, or
//! if there are no cases.
#![tactic(auto)]

mod case;
mod fault;
mod text;

use anyhow::{Result, bail};
use case::Case;
use fault::LineFault;
use std::alloc::Global;
use std::fmt::Write;
use std::io::{BufRead, BufReader};

/// Whether a line holds no case: it is empty or a comment.
fn is_skipped(line: &str) -> bool {
    line.is_empty() || line.starts_with('#')
}

/// The numbers of cases that go right and wrong, and a line for each of the second.
#[derive(Drop)]
struct Report {
    right: u64,
    wrong: u64,
    text: String,
}

/// Runs the case on a line.
fn run_line(alloc: Global, line: &str, number: u64, report: &mut Report) -> Result<(), LineFault> {
    if is_skipped(line) {
        return Ok(());
    }
    match Case::parse(line)?.difference(alloc)? {
        Some(text) => {
            report.wrong = report.wrong.saturating_add(1);
            writeln!(report.text, "line {number}: {text}")?;
        }
        None => report.right = report.right.saturating_add(1),
    }
    Ok(())
}

/// Runs the cases on the lines of an input.
fn run_lines<R: BufRead + Drop>(alloc: Global, input: R) -> Result<Report> {
    let mut report = Report {
        right: 0,
        wrong: 0,
        text: String::new(alloc),
    };
    for (at, line) in input.lines(alloc).enumerate() {
        let number = (at as u64).saturating_add(1);
        if let Err(fault) = run_line(alloc, &line?, number, &mut report) {
            bail!("line {number}: {fault}");
        }
    }
    Ok(report)
}

fn main(rt: HostRuntime) -> Result<()> {
    let alloc = rt.alloc();
    let report = run_lines(alloc, BufReader::new(alloc, rt.reader())?)?;
    let Report { right, wrong, text } = report;
    println!(rt; "{text}{right} right, {wrong} wrong")?;
    if wrong > 0 || right == 0 {
        bail!("a case is wrong, or there are none");
    }
    Ok(())
}
