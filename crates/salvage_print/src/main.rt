// salvage-print WIDTH HEIGHT: the records of a corner file on standard input that can be used, to standard output, as they are.
// On standard error a line for each dropped one and a last line with both counts; or the number of a refusal, and nothing is written to standard output.
#![tactic(auto)]

use salvage::Saved;
use std::env::{Env, FillError};
use std::io::Write;
use std::process::ExitCode;
use std::{fmt, io};

// The stream that failed, and how.
#[derive(Debug, Drop)]
enum Failure {
    Input(io::Error),
    Output(io::Error),
    Errors(io::Error),
}

impl fmt::Display for Failure {
    fn fmt<W: fmt::Write>(&self, f: &mut fmt::Formatter<W>) -> fmt::Result {
        match self {
            Failure::Input(error) => write!(f, "standard input: {error}"),
            Failure::Output(error) => write!(f, "standard output: {error}"),
            Failure::Errors(error) => write!(f, "standard error: {error}"),
        }
    }
}

fn main(rt: HostRuntime) -> ExitCode {
    let told = match sizes(&rt) {
        Some((width, height)) => run(&rt, width, height),
        None => print_usage(&mut rt.stderr()).map_err(Failure::Errors),
    };
    match told {
        Ok(()) => ExitCode::SUCCESS,
        Err(failure) => {
            // Where that line cannot be written either, the status is all that is left to tell.
            let _ = eprintln!(rt; "{failure}");
            ExitCode::FAILURE
        }
    }
}

// The width and the height, where the command line has both and no word more.
fn sizes(rt: &impl Env) -> Option<(usize, usize)> {
    if is_there(rt, 3) {
        return None;
    }
    Some((size_at(rt, 1)?, size_at(rt, 2)?))
}

// Whether the command line has a word there.
fn is_there(rt: &impl Env, i: usize) -> bool {
    !matches!(rt.arg(i, &mut []), Err(FillError::NotPresent))
}

// A word of the command line as a size; one that is longer than any size is none.
fn size_at(rt: &impl Env, i: usize) -> Option<usize> {
    let mut word = [0u8; 4096];
    let n = rt.arg(i, &mut word).ok()?;
    salvage_text::size_of(&word[..n])
}

// The file has room for one record more than is taken, so that more are refused; the outputs have room for whatever goes into them.
fn run(rt: &HostRuntime, width: usize, height: usize) -> Result<(), Failure> {
    let mut file = [0u8; 49164];
    let mut out = [0u8; 49152];
    let mut faults = [0u16; 8194];
    let errors = &mut rt.stderr();
    let n = input::read_input(&mut rt.reader(), &mut file).map_err(Failure::Input)?;
    match salvage::salvage_corners(&file[..n], width, height, &mut out, &mut faults) {
        Ok(Saved { kept, dropped }) => {
            rt.write_all(&out[..12 * kept]).map_err(Failure::Output)?;
            print_faults(errors, &faults[..2 * dropped]).map_err(Failure::Errors)?;
            print_last(errors, kept, dropped).map_err(Failure::Errors)
        }
        Err(refusal) => print_refused(errors, u32::from(refusal)).map_err(Failure::Errors),
    }
}

// A line for each pair, each in one write.
fn print_faults<W: Write>(errors: &mut W, faults: &[u16]) -> io::Result<()> {
    let (pairs, _) = faults.as_chunks::<2>();
    for [number, fault] in pairs {
        let mut text = [0u8; 64];
        let n = salvage_text::fault_line(*number, *fault, &mut text);
        errors.write_all(&text[..n])?;
    }
    Ok(())
}

fn print_last<W: Write>(errors: &mut W, kept: usize, dropped: usize) -> io::Result<()> {
    let mut text = [0u8; 64];
    let n = salvage_text::last_line(kept, dropped, &mut text);
    errors.write_all(&text[..n])
}

fn print_refused<W: Write>(errors: &mut W, no: u32) -> io::Result<()> {
    let mut text = [0u8; 64];
    let n = salvage_text::refused_line(no, &mut text);
    errors.write_all(&text[..n])
}

fn print_usage<W: Write>(errors: &mut W) -> io::Result<()> {
    writeln!(
        errors,
        "usage: salvage-print WIDTH HEIGHT, both in decimal digits"
    )
}
