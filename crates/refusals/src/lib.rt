// The refusals from 10 up, by name and by number: one table for all calls.
#![tactic(auto)]

ghost use Rattle.std.specs.Prelude.{◌≡◌};
ghost use Rattle.refusals.specs.Numbers.{number_of, Names};

use std::error::Error;
use std::fmt;

/// Why a call was refused: it answers nothing else and writes nothing. The number is the exported call's answer.
#[derive(Clone, Copy, Debug, PartialEq, Eq)]
pub enum Refusal {
    BadImage = 10,
    BadRadius = 11,
    BadLimit = 12,
    BadRing = 13,
    EmptyRoi = 14,
    BadOut = 15,
    TooMany = 16,
    GridTooBig = 17,
    BadScratch = 18,
    BadLength = 19,
    NoMagic = 20,
    BadHeader = 21,
    BadGraymapSize = 22,
    TooShort = 23,
    LeftOver = 25,
    BadSample = 26,
    BadBuffer = 27,
    BadBoard = 30,
    BadPlaces = 31,
    BadList = 32,
    NoSuchCorner = 35,
}

impl From<Refusal> for u32 {
    ghost from_gives = { λ refusal number. number ≡ number_of refusal };

    fn from(refusal: Refusal) -> u32 {
        refusal as u32
    }
}

/// A number that is no refusal's.
#[derive(Clone, Copy, Debug, PartialEq, Eq)]
pub struct NoRefusal(pub u32);

impl TryFrom<u32> for Refusal {
    type Error = NoRefusal;

    ghost try_from_gives = { Names };

    fn try_from(number: u32) -> Result<Self, NoRefusal> {
        match number {
            10 => Ok(Refusal::BadImage),
            11 => Ok(Refusal::BadRadius),
            12 => Ok(Refusal::BadLimit),
            13 => Ok(Refusal::BadRing),
            14 => Ok(Refusal::EmptyRoi),
            15 => Ok(Refusal::BadOut),
            16 => Ok(Refusal::TooMany),
            17 => Ok(Refusal::GridTooBig),
            18 => Ok(Refusal::BadScratch),
            19 => Ok(Refusal::BadLength),
            20 => Ok(Refusal::NoMagic),
            21 => Ok(Refusal::BadHeader),
            22 => Ok(Refusal::BadGraymapSize),
            23 => Ok(Refusal::TooShort),
            25 => Ok(Refusal::LeftOver),
            26 => Ok(Refusal::BadSample),
            27 => Ok(Refusal::BadBuffer),
            30 => Ok(Refusal::BadBoard),
            31 => Ok(Refusal::BadPlaces),
            32 => Ok(Refusal::BadList),
            35 => Ok(Refusal::NoSuchCorner),
            _ => Err(NoRefusal(number)),
        }
    }
}

impl fmt::Display for Refusal {
    fn fmt<W: fmt::Write>(&self, f: &mut fmt::Formatter<W>) -> fmt::Result {
        write!(f, "refused {}", u32::from(*self))
    }
}

impl fmt::Display for NoRefusal {
    fn fmt<W: fmt::Write>(&self, f: &mut fmt::Formatter<W>) -> fmt::Result {
        write!(f, "no refusal has number {}", self.0)
    }
}

impl Error for Refusal {}

impl Error for NoRefusal {}
