// merge-print: corners from standard input, merged at radius 2, to standard output, a line a corner.
// Records are x, y and strength, little-endian binary32 bits, twelve bytes, no header. A read or a write that fails is told on standard error.
#![tactic(auto)]

use refusals::Refusal;
use std::io::{ErrorKind, Read};
use std::process::ExitCode;
use std::{fmt, io};

// No file is read further than this, so that the program ends; it is more than any disk holds.
const MOST: usize = 0x1000_0000_0000_0000;

// The stream that failed, and how.
#[derive(Debug, Drop)]
enum Failure {
    Input(io::Error),
    Output(io::Error),
}

impl fmt::Display for Failure {
    fn fmt<W: fmt::Write>(&self, f: &mut fmt::Formatter<W>) -> fmt::Result {
        match self {
            Failure::Input(error) => write!(f, "standard input: {error}"),
            Failure::Output(error) => write!(f, "standard output: {error}"),
        }
    }
}

fn main(rt: HostRuntime) -> ExitCode {
    match run(&rt, &mut rt.reader()) {
        Ok(()) => ExitCode::SUCCESS,
        Err(failure) => {
            // Where that line cannot be written either, the status is all that is left to tell.
            let _ = eprintln!(rt; "{failure}");
            ExitCode::FAILURE
        }
    }
}

// The whole file is read before anything is decided: a cut file is 19 also where it is too long.
fn run<R: Read>(rt: &impl Print, input: &mut R) -> Result<(), Failure> {
    let mut bytes = [0u8; 49152];
    let mut list = [0f32; 12288];
    let got = input::read_input(input, &mut bytes).map_err(Failure::Input)?;
    let length = length_past(input, got).map_err(Failure::Input)?;
    print_answer(rt, merged(&bytes[..got], length, &mut list), &list).map_err(Failure::Output)
}

// How long the file is of which so many bytes were read. One that goes on past the limit cannot be read.
fn length_past<R: Read>(input: &mut R, got: usize) -> io::Result<usize> {
    let mut length = got;
    let mut chunk = [0u8; 4096];
    while length < MOST {
        let more = input::read_input(input, &mut chunk)?;
        if more == 0 {
            break;
        }
        length += more;
    }
    if MOST < length {
        return Err(io::Error::from(ErrorKind::FileTooLarge));
    }
    Ok(length)
}

// Merges the corners of a file of that length, which begins with those bytes, at the front of the list; how many are left.
fn merged(bytes: &[u8], length: usize, list: &mut [f32]) -> Result<usize, Refusal> {
    let mut heads = [0u16; 16384];
    let mut links = [0u16; 4096];
    let n = merge_text::numbers_in(length)?;
    let corners = list.get_mut(..n).ok_or(Refusal::TooMany)?;
    merge_text::read_numbers(bytes, corners);
    merge::merge_corners_simple(corners, 2.0, &mut heads, &mut links)
}

fn print_answer(rt: &impl Print, answer: Result<usize, Refusal>, list: &[f32]) -> io::Result<()> {
    match answer {
        Ok(count) => {
            print_corners(rt, list, count)?;
            println!(rt; "total {count}")
        }
        Err(refusal) => println!(rt; "{refusal}"),
    }
}

// A line for each of the first corners.
fn print_corners(rt: &impl Print, list: &[f32], count: usize) -> io::Result<()> {
    let (corners, _) = list.as_chunks::<3>();
    for [x, y, strength] in corners.iter().take(count) {
        print_number(rt, *x, b' ')?;
        print_number(rt, *y, b' ')?;
        print_number(rt, *strength, b'\n')?;
    }
    Ok(())
}

// By `hex`, whose clause states the text byte for byte.
fn print_number(rt: &impl Print, x: f32, end: u8) -> io::Result<()> {
    rt.write_all(&merge_text::hex(floats::f32_to_bits(x), end))
}
