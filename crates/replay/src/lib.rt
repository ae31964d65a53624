// The harness of every replay program: reading a list of stored cases, lending and judging buffers, spoiling what is judged, and counting.
// Each case is run as it is stored, with one bit of its answer flipped, and with one element of what the call wrote changed: the last two must be noticed.
#![tactic(auto)]

mod aim;
mod buffers;
mod element;
mod part;
mod spoiling;

ghost use Rattle.std.specs.Prelude.{◌≡◌, false, cond, ◌*◌, ℕ, List, length, IfOk, OnErr};
ghost use Rattle.std.specs.Io.KnownBytes.{Consumes};
ghost use Rattle.replay.specs.Count.{Within, Takes, none, more_of, counted_in, ended_of};
ghost use Rattle.replay.specs.Spoil.{flipped};

pub use aim::{Aim, within};
pub use buffers::{
    Fill, bytes_stand, corners_stand, counts, lend, load, mark, paint, stands, wanted,
};
pub use element::{Element, hit, other};
pub use part::{Image, Part, behind_image, place};
pub use spoiling::{Judged, Spoilt, bit_for, flip, hit_number, pick, spoil, spoil_at};
use std::convert::AsSlice;
use std::io::Read;
use std::rt::Files;
use std::{fmt, fs, io};

// What an open list has next: a case of so many bytes, its end, or what is no whole case.
#[derive(Clone, Copy, Debug, PartialEq)]
pub enum Next {
    Case(usize),
    End,
    Broken,
}

// The next case at the start of buf. The list ends only at a case's border: a cut head, a cut case and one that buf cannot hold are broken.
// A read that fails is the error; what was taken of the list by then is bytes from its front.
pub fn next_case<R: Read>(list: &mut R, buf: &mut [u8]) -> io::Result<Next>
    ensures fits { IfOk result (λ next. Within next (length buf.new)) }
    ensures takes { IfOk result (λ next. Takes next buf.new (R.remaining list.old) (R.remaining list.new)) }
    ensures failed { OnErr result ((bytes : List ℕ) × Consumes (R.remaining list.old) (R.remaining list.new) bytes) }
{
    let mut head = [0u8; 4];
    let got = input::read_input(list, &mut head)?;
    if got == 0 {
        return Ok(Next::End);
    }
    if got < 4 {
        return Ok(Next::Broken);
    }
    let size = bytes_of(words::word(&head, 0));
    if buf.len() < size {
        return Ok(Next::Broken);
    }
    if input::read_input(list, &mut buf[..size])? < size {
        return Ok(Next::Broken);
    }
    Ok(Next::Case(size))
}

fn bytes_of(words: u32) -> usize
    ensures { result ≡ 4 * words }
{
    (words as usize) * 4
}

// What was counted of a list: cases, wrong answers, spoilt ones that went unnoticed, and whether the list was read to its end.
#[derive(Clone, Copy, Debug, PartialEq)]
pub struct Tally {
    pub cases: u32,
    pub wrong: u32,
    pub blind: u32,
    pub whole: bool,
}

impl Tally {
    pub fn new() -> Self
        ensures { result ≡ none }
    {
        Tally {
            cases: 0,
            wrong: 0,
            blind: 0,
            whole: false,
        }
    }

    pub fn counted(self, right: bool, noticed: bool) -> Self
        ensures { result ≡ counted_in self right noticed }
    {
        Tally {
            cases: more(self.cases, false),
            wrong: more(self.wrong, right),
            blind: more(self.blind, noticed),
            whole: self.whole,
        }
    }

    pub fn ended(self) -> Self
        ensures { result ≡ ended_of self }
    {
        Tally {
            whole: true,
            ..self
        }
    }
}

// One more unless all is well, up to a limit that no list reaches.
fn more(n: u32, well: bool) -> u32
    ensures { result ≡ more_of n well }
{
    if well {
        return n;
    }
    if 1000000 < n {
        return n;
    }
    n + 1
}

// What the cases of a list are tried by.
pub trait Trial {
    // Flips a bit of what is judged in a case.
    fn spoil(&self, case: &mut [u8], turn: u32) -> Spoilt
        ensures { case.new ≡ flipped case.old result.place result.bit };

    // The element of what the call writes that is changed at a turn; none where it writes nothing.
    fn aim(&self, _case: &[u8], _turn: u32) -> Option<Aim> {
        None
    }

    // Whether the answer of the call, with an element of what was written changed where one is aimed at, is the one stored in the case.
    fn holds(&mut self, case: &[u8], aim: Option<Aim>) -> bool;
}

// One case: as it is stored, with a bit of its answer flipped, and with an element of what was written changed.
pub fn tried<T: Trial>(trial: &mut T, tally: Tally, case: &mut [u8]) -> Tally
    ensures counted { result.cases ≡ more_of tally.cases false }
    ensures as_it_was { case.new ≡ case.old }
{
    let turn = tally.cases;
    let right = trial.holds(case, None);
    let noticed = notices(trial, case, turn);
    tally.counted(right, noticed)
}

// Whether the flipped bit and the changed element of a turn are both noticed.
#[tactic(auto, using(crate::proofs::SpoilLaws::flipped_twice))]
pub fn notices<T: Trial>(trial: &mut T, case: &mut [u8], turn: u32) -> bool
    ensures { case.new ≡ case.old }
{
    let spoilt = trial.spoil(case, turn);
    let taken = trial.holds(case, None);
    flip(case, spoilt.place, spoilt.bit);
    let missed = match trial.aim(case, turn) {
        Some(aim) => trial.holds(case, Some(aim)),
        None => false,
    };
    !taken & !missed
}

// What was made of a list's cases, and whether the list was read to its end.
#[derive(Drop)]
pub struct Walked<T> {
    pub found: T,
    pub whole: bool,
}

// The cases of a stored list one after the other, each at the start of `case`; `each` takes what was made of those before. A list that has more cases
// than are given as the most, and one that is broken, are not read to the end.
pub fn walk<R: Files, T: Drop, F: FnMut(T, &mut [u8]) -> T>(
    rt: &R,
    name: &str,
    case: &mut [u8],
    most: u32,
    start: T,
    mut each: F,
) -> io::Result<Walked<T>>
    requires { F.IsAlwaysCallable each }
{
    let mut list = fs::open(rt, name)?;
    let mut found = start;
    for _ in 0..most {
        match next_case(&mut list, case)? {
            Next::Case(n) => found = each(found, &mut case[..n]),
            Next::End => return Ok(Walked { found, whole: true }),
            Next::Broken => break,
        }
    }
    Ok(Walked {
        found,
        whole: false,
    })
}

impl Walked<Tally> {
    // What was counted of a list, which says too whether the list was read to its end.
    pub fn tally(self) -> Tally
        ensures { result ≡ cond self.whole (ended_of self.found) self.found }
    {
        if self.whole {
            self.found.ended()
        } else {
            self.found
        }
    }
}

// A stored list's cases, each counted by `each` to those before, and the line of what was counted.
pub fn replay<R: Files + Print, F: FnMut(Tally, &mut [u8]) -> Tally>(
    rt: &R,
    name: &str,
    case: &mut [u8],
    most: u32,
    each: F,
) -> io::Result<()>
    requires { F.IsAlwaysCallable each }
{
    let walked = walk(rt, name, case, most, Tally::new(), each)?;
    report(rt, name, walked.tally())
}

// The same of cases that are each tried by a `Trial`.
pub fn try_list<R: Files + Print, T: Trial>(
    rt: &R,
    name: &str,
    case: &mut [u8],
    most: u32,
    trial: &mut T,
) -> io::Result<()> {
    replay(rt, name, case, most, |tally, case| {
        tried(trial, tally, case)
    })
}

// A list's name and what was counted; a list that was not read to its end is broken.
pub fn report(rt: &impl Print, name: impl AsSlice<u8> + Drop, tally: Tally) -> io::Result<()> {
    rt.write_all(name.as_slice())?;
    println!(rt; " {tally}")
}

impl fmt::Display for Tally {
    fn fmt<W: fmt::Write>(&self, f: &mut fmt::Formatter<W>) -> fmt::Result {
        if !self.whole {
            return write!(f, "broken");
        }
        let Tally {
            cases,
            wrong,
            blind,
            ..
        } = *self;
        write!(f, "cases {cases} wrong {wrong} blind {blind}")
    }
}
