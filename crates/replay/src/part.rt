// Parts of a stored case: words that follow one after the other from a byte's place on, and the image that a case begins with.
ghost use Rattle.std.specs.Prelude.{◌≡◌, ◌≤◌, ◌+◌, ◌/◌, eqb, slice_index};
ghost use Rattle.std.specs.Float.Ieee as Ieee;
ghost use Rattle.std.specs.Float.{binary32};
ghost use Rattle.words.specs.Words.{word_at, long_at, signed_of};
ghost use Rattle.replay.specs.Place.{place_of, bytes_in, image_in, image_end};
ghost use Rattle.replay.specs.Buffers.{zeros_in};
ghost use Rattle.replay.specs.Spoil.{judged_in};

use crate::Judged;

// What stands in a case from a place on. A word past the case's end is 0.
#[derive(Clone, Copy)]
pub struct Part<'a> {
    pub case: &'a [u8],
    pub at: usize,
}

impl<'a> Part<'a> {
    // The whole case.
    pub fn of(case: &'a [u8]) -> Self
        ensures whole { result.case.now ≡ case.now }
        ensures from_start { result.at ≡ 0 }
    {
        Part { case, at: 0 }
    }

    // The part that begins so many words further on.
    pub fn behind(self, words: usize) -> Self
        ensures same_case { result.case.now ≡ self.entry.case.now }
        ensures further { result.at ≡ place_of self.entry.at words }
    {
        Part {
            case: self.case,
            at: place(self.at, words),
        }
    }

    // The part behind so many bytes, at a whole word.
    pub fn behind_bytes(self, bytes: u32) -> Self
        ensures same_case { result.case.now ≡ self.entry.case.now }
        ensures further { result.at ≡ place_of self.entry.at ((bytes + 3) / 4) }
    {
        self.behind((bytes as usize + 3) / 4)
    }

    pub fn word(self, i: usize) -> u32
        ensures { result ≡ word_at self.entry.case.now (place_of self.entry.at i) }
    {
        words::word(self.case, place(self.at, i))
    }

    // The word as a number of things.
    pub fn number(self, i: usize) -> usize
        ensures stored { result ≡ word_at self.entry.case.now (place_of self.entry.at i) }
        ensures in_a_word { result ≤ 0xffff_ffff }
    {
        self.word(i) as usize
    }

    pub fn long(self, i: usize) -> usize
        ensures { result ≡ long_at self.entry.case.now (place_of self.entry.at i) }
    {
        words::long(self.case, place(self.at, i)) as usize
    }

    pub fn float(self, i: usize) -> f32
        ensures { result ≡ Ieee.of_bits binary32 (word_at self.entry.case.now (place_of self.entry.at i)) }
    {
        floats::f32_from_bits(self.word(i))
    }

    pub fn int(self, i: usize) -> i32
        ensures { result ≡ signed_of (word_at self.entry.case.now (place_of self.entry.at i)) }
    {
        words::int(self.case, place(self.at, i))
    }

    // Whether a number is the one that is stored.
    pub fn is_float(self, i: usize, x: f32) -> bool
        ensures { result ≡ eqb (Ieee.to_bits binary32 x) (word_at self.entry.case.now (place_of self.entry.at i)) }
    {
        floats::f32_to_bits(x) == self.word(i)
    }

    // The byte number i; 0 past the end of the case.
    pub fn byte(self, i: usize) -> u8
        ensures { result ≡ slice_index self.entry.case.now (self.entry.at + i) }
    {
        if self.case.len() <= i {
            return 0;
        }
        if self.case.len() - i <= self.at {
            return 0;
        }
        self.case[self.at + i]
    }

    // So many bytes from here on; none where the case has fewer.
    pub fn bytes(self, n: usize) -> &'a [u8]
        ensures { result.now ≡ bytes_in self.entry.case.now self.entry.at n }
    {
        if self.case.len() < n {
            return &self.case[..0];
        }
        if self.case.len() - n < self.at {
            return &self.case[..0];
        }
        &self.case[self.at..self.at + n]
    }

    // So many words that are judged of an answer: the one that is its number, and those that follow one after the other from another one on.
    pub fn judged(self, words: usize, number: usize, next: usize) -> Judged
        ensures { result ≡ judged_in self.entry.at words number next }
    {
        Judged {
            words,
            number: place(self.at, number),
            next: place(self.at, next),
        }
    }

    // Whether the words from one number up to another are 0.
    #[tactic(auto, using(crate::proofs::BufferLaws::every_more, crate::proofs::BufferLaws::every_fails, crate::proofs::BufferLaws::every_end))]
    pub fn is_zero(self, from: usize, to: usize) -> bool
        ensures { result ≡ zeros_in self.entry.case.now self.entry.at from to }
    {
        for i in from..to {
            if self.word(i) != 0 {
                return false;
            }
        }
        true
    }
}

// Where a word stands; no case is so long that it would wrap.
pub fn place(at: usize, i: usize) -> usize
    ensures { result ≡ place_of at i }
{
    if (0x1000_0000 < at) | (0x1000_0000 < i) {
        return 0x1000_0000;
    }
    at + 4 * i
}

// The image that a case begins with: its width, height and pitch, each two words, the number of its bytes, and those; empty where they are not whole.
#[derive(Clone, Copy)]
pub struct Image<'a> {
    pub samples: &'a [u8],
    pub width: usize,
    pub height: usize,
    pub pitch: usize,
}

impl<'a> Image<'a> {
    pub fn of(case: &'a [u8]) -> Self
        ensures samples { result.samples.now ≡ image_in case.now }
        ensures width { result.width ≡ long_at case.now 0 }
        ensures height { result.height ≡ long_at case.now 8 }
        ensures pitch { result.pitch ≡ long_at case.now 16 }
    {
        let start = Part { case, at: 28 };
        Image {
            samples: start.bytes(words::word(case, 24) as usize),
            width: words::long(case, 0) as usize,
            height: words::long(case, 8) as usize,
            pitch: words::long(case, 16) as usize,
        }
    }
}

// What stands behind the image, which ends at a whole word.
pub fn behind_image<'a>(case: &'a [u8]) -> Part<'a>
    ensures same_case { result.case.now ≡ case.now }
    ensures behind { result.at ≡ image_end case.now }
{
    let start = Part { case, at: 28 };
    start.behind_bytes(words::word(case, 24))
}
