// The lines that are written, each with its line feed: put together part by part in a lent buffer, which cannot fail, or displayed.
ghost use Rattle.std.specs.Prelude.{Some, ◌≡◌, ◌++◌, ◌+◌, ◌≤◌, length, take};
ghost use Rattle.std.specs.Fmt.{decimal};
ghost use Rattle.salvage_text.specs.Lines.{fault_line, last_line, refused_line};
ghost use Rattle.salvage_text.specs.Steps.{Written};

use std::fmt;

/// Puts the line of a dropped record at the start of the buffer: its number and what is wrong with it; how long the line is.
pub fn fault_line(number: u16, fault: u16, text: &mut [u8; 64]) -> usize
    ensures { Written (fault_line number fault) result text.new }
{
    let at = put_number(text, 0, number as u64);
    match fault {
        1 => put(text, at, b" cut\n"),
        2 => put(text, at, b" not finite\n"),
        _ => put(text, at, b" outside\n"),
    }
}

/// Puts the last line at the start of the buffer: how many records were kept and dropped; how long the line is.
pub fn last_line(kept: usize, dropped: usize, text: &mut [u8; 64]) -> usize
    ensures { Written (last_line kept dropped) result text.new }
{
    let a = put(text, 0, b"kept ");
    let b = put_number(text, a, kept as u64);
    let c = put(text, b, b" dropped ");
    let d = put_number(text, c, dropped as u64);
    put(text, d, b"\n")
}

/// Puts the line of a refusal, by its number, at the start of the buffer; how long the line is.
pub fn refused_line(no: u32, text: &mut [u8; 64]) -> usize
    ensures { Written (refused_line no) result text.new }
{
    let a = put(text, 0, b"refused ");
    let b = put_number(text, a, no as u64);
    put(text, b, b"\n")
}

// The digits of n from `at` on; where they end.
#[tactic(auto, using(crate::proofs::LineLaws::fewest))]
fn put_number(text: &mut [u8; 64], at: usize, n: u64) -> usize
    requires room { at + 20 ≤ 64 }
    ensures short { result ≤ at + 20 }
    ensures stands { take result text.new ≡ take at text.old ++ decimal n }
{
    let mut digits = [0u8; 20];
    let k = io::decimal(n, &mut digits);
    put(text, at, &digits[..k])
}

// A part from `at` on; where it ends.
fn put(text: &mut [u8; 64], at: usize, part: &[u8]) -> usize
    requires room { at + length part.now ≤ 64 }
    ensures ends { result ≡ at + length part.now }
    ensures stands { take result text.new ≡ take at text.old ++ part.now }
{
    let end = at + part.len();
    text[at..end].copy_from_slice(part);
    end
}

/// The line of a dropped record: its number and what is wrong with it, as the list of faults holds them.
#[derive(Clone, Copy, Debug, PartialEq)]
pub struct Dropped {
    pub number: u16,
    pub fault: u16,
}

impl fmt::Display for Dropped {
    ghost output = { λ line. Some (fault_line line.number line.fault) };

    fn fmt<W: fmt::Write>(&self, f: &mut fmt::Formatter<W>) -> fmt::Result {
        let number = self.number;
        match self.fault {
            1 => write!(f, "{number} cut\n"),
            2 => write!(f, "{number} not finite\n"),
            _ => write!(f, "{number} outside\n"),
        }
    }
}

/// The last line: how many records were kept and dropped.
#[derive(Clone, Copy, Debug, PartialEq)]
pub struct Counts {
    pub kept: usize,
    pub dropped: usize,
}

impl fmt::Display for Counts {
    ghost output = { λ line. Some (last_line line.kept line.dropped) };

    fn fmt<W: fmt::Write>(&self, f: &mut fmt::Formatter<W>) -> fmt::Result {
        let kept = self.kept;
        let dropped = self.dropped;
        write!(f, "kept {kept} dropped {dropped}\n")
    }
}

/// The line of a refusal, by its number.
#[derive(Clone, Copy, Debug, PartialEq)]
pub struct Refused(pub u32);

impl fmt::Display for Refused {
    ghost output = { λ line. Some (refused_line line.0) };

    fn fmt<W: fmt::Write>(&self, f: &mut fmt::Formatter<W>) -> fmt::Result {
        let number = self.0;
        write!(f, "refused {number}\n")
    }
}
