// The magic and the three numbers of a header, whatever their range. Numbers are cut at 10000, above all that a caller asks of them.
ghost use Rattle.std.specs.Prelude.{◌≡◌, true, false, ◌+◌, ◌-◌, ◌*◌, ◌≤◌, length, drop};
ghost use Rattle.graymap.specs.Grammar.{is_digit, digits, number_in, header_in};
ghost use Rattle.graymap.specs.Steps.{has_magic, ends_gap, hides, cut_at, cut, ended_of, found_of, heading_of, PastGap};

use crate::bytes;

// A number, cut, and where the byte behind its whitespace stands.
#[derive(Clone, Copy)]
struct Found {
    value: usize,
    next: usize,
}

// The three numbers, cut, and where the pixels begin.
#[derive(Clone, Copy)]
pub struct Heading {
    pub width: usize,
    pub height: usize,
    pub maximum: usize,
    pub start: usize,
}

// P, 5 and a whitespace byte.
pub fn has_magic(file: &[u8]) -> bool
    ensures { result ≡ has_magic file.now }
{
    if file.len() < 3 {
        return false;
    }
    (file[0] == b'P') & (file[1] == b'5') & bytes::is_space(file[2])
}

// None where a number is missing.
pub fn read_header(file: &[u8], from: usize) -> Option<Heading>
    requires { from ≤ length file.now }
    ensures { result ≡ heading_of (length file.now) (header_in (drop from file.now)) }
{
    let width = number(file, from)?;
    let height = number(file, width.next)?;
    let maximum = number(file, height.next)?;
    Some(Heading {
        width: width.value,
        height: height.value,
        maximum: maximum.value,
        start: maximum.next,
    })
}

fn number(file: &[u8], from: usize) -> Option<Found>
    requires { from ≤ length file.now }
    ensures { result ≡ found_of (length file.now) (number_in (drop from file.now)) }
{
    let at = past_gap(file, from);
    digits_from(file, at)
}

// Where the first byte stands that is neither whitespace nor in a comment.
#[tactic(auto, using(crate::proofs::GapLaws::gap_ended, crate::proofs::GapLaws::gap_on, crate::proofs::GapLaws::gap_out))]
fn past_gap(file: &[u8], from: usize) -> usize
    requires { from ≤ length file.now }
    ensures { PastGap file.now from result }
{
    let mut hidden = false;
    for i in from..file.len() {
        let b = file[i];
        if ends_gap(hidden, b) {
            return i;
        }
        hidden = hides(hidden, b);
    }
    file.len()
}

fn ends_gap(hidden: bool, b: u8) -> bool
    ensures { result ≡ ends_gap hidden b }
{
    if hidden {
        return false;
    }
    !(bytes::is_space(b) | (b == b'#'))
}

// Whether what comes behind a byte of a gap is hidden.
fn hides(hidden: bool, b: u8) -> bool
    ensures { result ≡ hides hidden b }
{
    if hidden {
        return !bytes::ends_line(b);
    }
    !bytes::is_space(b)
}

#[tactic(auto, using(crate::proofs::DigitLaws::digit_on, crate::proofs::DigitLaws::digit_ended, crate::proofs::DigitLaws::digit_out, crate::proofs::CutLaws::cut_below, crate::proofs::CutLaws::cut_cut, crate::proofs::CutLaws::cut_most))]
fn digits_from(file: &[u8], from: usize) -> Option<Found>
    requires { from ≤ length file.now }
    ensures { result ≡ found_of (length file.now) (digits 0 false (drop from file.now)) }
{
    let mut value = 0;
    for i in from..file.len() {
        let b = file[i];
        if !bytes::is_digit(b) {
            return ended(value, from < i, b, i + 1);
        }
        value = with_digit(value, b);
    }
    None
}

// A byte that is no digit ends a number that has one, if it is whitespace.
fn ended(value: usize, some: bool, b: u8, next: usize) -> Option<Found>
    ensures { result ≡ ended_of value some b next }
{
    if some & bytes::is_space(b) {
        return Some(Found { value, next });
    }
    None
}

#[tactic(auto, unfolding(crate::specs::Steps::cut))]
fn with_digit(value: usize, b: u8) -> usize
    requires cut { value ≤ cut_at }
    requires digit { is_digit b ≡ true }
    ensures { result ≡ cut (10 * value + (b - 48)) }
{
    let n = 10 * value + (b - b'0') as usize;
    if n < 10000 { n } else { 10000 }
}
