// The program `table`: reads its options, calls the library, prints what was done.
#![tactic(auto)]

mod example;

use excerpt::{line_end, line_start, shown};
use fault::Fault;
use std::process::ExitCode;
use std::{env, fs};
use words::{Tally, Text, scan};

const USAGE: &str = "usage: table check [FILE]

  check FILE   scan the script in FILE and say what it is made of,
               or the first fault with its place
  check        the same for a script that is built in";

// The counts of a scanned script, in words.
fn tell(rt: &HostRuntime, name: &str, tally: Tally) -> anyhow::Result<()> {
    let Tally {
        words,
        names,
        integers,
        strings,
        signs,
        lines,
    } = tally;
    println!(rt; "{name}: scanned to its end, line {lines}")?;
    println!(rt; "  words    {words:>6}")?;
    println!(rt; "  names    {names:>6}")?;
    println!(rt; "  integers {integers:>6}")?;
    println!(rt; "  strings  {strings:>6}")?;
    println!(rt; "  signs    {signs:>6}")?;
    Ok(())
}

// The line of a byte, and below it a caret under the byte.
fn show_place(rt: &HostRuntime, text: &[u8], byte: usize) -> anyhow::Result<()> {
    let start = line_start(text, byte);
    let end = line_end(text, byte);
    let line: String = text[start..end]
        .iter()
        .map(|b| shown(*b))
        .collect(rt.alloc())?;
    let before = byte.min(text.len()) - start;
    println!(rt; "{line}")?;
    println!(rt; "{:before$}^", "")?;
    Ok(())
}

// A fault in one line, with the script's line and a caret under the place below it.
fn refuse(rt: &HostRuntime, text: &Text, fault: Fault) -> anyhow::Result<()> {
    println!(rt; "{fault}")?;
    show_place(rt, text.bytes(), fault.place.byte as usize)
}

// A refusal has been told in full, so it is a status and no error.
fn check(rt: &HostRuntime, name: &str, bytes: Vec<u8>) -> anyhow::Result<ExitCode> {
    let text = match Text::new(bytes) {
        Ok(text) => text,
        Err(oversized) => {
            let fault = oversized.fault;
            println!(rt; "{fault}")?;
            return Ok(ExitCode::FAILURE);
        }
    };
    match scan(&text) {
        Ok(tally) => {
            tell(rt, name, tally)?;
            Ok(ExitCode::SUCCESS)
        },
        Err(fault) => {
            refuse(rt, &text, fault)?;
            Ok(ExitCode::FAILURE)
        },
    }
}

fn check_file(rt: &HostRuntime, name: &str) -> anyhow::Result<ExitCode> {
    match fs::read(rt, name) {
        Ok(bytes) => check(rt, name, bytes),
        Err(error) => {
            eprintln!(rt; "table: cannot read {name}: {error}")?;
            Ok(ExitCode::FAILURE)
        }
    }
}

fn main(rt: HostRuntime) -> anyhow::Result<ExitCode> {
    let words: Vec<String> = env::args(&rt)?.skip(1).collect(rt.alloc())?;
    if words.is_empty() || (words.len() == 1 && words[0].as_str() == "check") {
        return check(&rt, "built-in example", example::SCRIPT.to_vec(rt.alloc())?);
    }
    if words.len() == 2 && words[0].as_str() == "check" {
        return check_file(&rt, words[1].as_str());
    }
    eprintln!(rt; "{USAGE}")?;
    Ok(ExitCode::FAILURE)
}
