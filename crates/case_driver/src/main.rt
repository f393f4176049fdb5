//! The program `case_driver` reads commands, a line each, and writes the answer to each question.
//!
//! A line with `over` or `program` begins a run over a storage, or over a whole program. Other lines give the services
//! there, and what others do meanwhile. A line that begins with `? ` is a question. One that begins with `! ` is asked
//! while memory is refused. The driver knows no case and compares nothing: the wanted answers are in the cases. Only
//! its safety and its end are proved.
#![tactic(auto)]

mod accesses;
mod answers;
mod case_error;
mod descriptions;
mod entries;
mod forms;
mod given;
mod known;
mod left;
mod programs;
mod run;
mod sessions;
mod starve;
mod storages;
mod subject;
mod values;
mod words;

use crate::starve::carry_out_all;
use std::io;

/// Carries out the lines of one run, and prints the answers.
fn print_run(rt: &HostRuntime, lines: &[&str]) -> io::Result<()> {
    let mut text = String::new(rt.alloc());
    carry_out_all(rt.alloc(), lines, &mut text)?;
    print!(rt; "{text}")
}

/// Carries out all runs of an input, one after another.
fn print_runs(rt: &HostRuntime, input: &str) -> io::Result<()> {
    let mut run = Vec::new(rt.alloc());
    for line in input.lines() {
        if line.starts_with("over ") || line.starts_with("program ") {
            print_run(rt, &run)?;
            run.clear();
        }
        run.push(line)?;
    }
    print_run(rt, &run)
}

fn main(rt: HostRuntime) -> io::Result<()> {
    let input = io::read_to_string(rt.alloc(), rt.reader())?;
    print_runs(&rt, input.as_str())
}
