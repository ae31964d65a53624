// The elements of lent buffers, each stored in a case as a word.
ghost use Rattle.std.specs.Prelude.{◌≡◌, ℕ};
ghost use Rattle.std.specs.Float.Ieee as Ieee;
ghost use Rattle.std.specs.Float.{binary32};
ghost use Rattle.replay.specs.Buffers.{mark_of, scratch_mark, byte_mark, lowest};
ghost use Rattle.replay.specs.Spoil.{other_of, other_in, hit_of};

// A number of a buffer: the word that it is stored as, and the word of the paint at a place, which no call writes there.
pub trait Element: Copy {
    ghost word_of: { Self → ℕ };

    ghost of_word: { ℕ → Self };

    ghost mark_at: { ℕ → ℕ };

    fn to_word(self) -> u32
        ensures { result ≡ word_of self };

    fn from_word(word: u32) -> Self
        ensures { result ≡ of_word word };

    fn mark(i: usize) -> u32
        ensures { result ≡ mark_at i };
}

// Numbers from 1.5 up.
impl Element for f32 {
    ghost word_of = { Ieee.to_bits binary32 };

    ghost of_word = { Ieee.of_bits binary32 };

    ghost mark_at = { mark_of };

    fn to_word(self) -> u32 {
        floats::f32_to_bits(self)
    }

    fn from_word(word: u32) -> Self {
        floats::f32_from_bits(word)
    }

    fn mark(i: usize) -> u32 {
        0x3fc0_0000 + (i % 999) as u32
    }
}

// The same words.
impl Element for u32 {
    ghost word_of = { λ n. n };

    ghost of_word = { λ n. n };

    ghost mark_at = { mark_of };

    fn to_word(self) -> u32 {
        self
    }

    fn from_word(word: u32) -> Self {
        word
    }

    fn mark(i: usize) -> u32 {
        <f32 as Element>::mark(i)
    }
}

// Small numbers from 1 up.
impl Element for u16 {
    ghost word_of = { λ n. n };

    ghost of_word = { lowest 0x1_0000 };

    ghost mark_at = { scratch_mark };

    fn to_word(self) -> u32 {
        u32::from(self)
    }

    fn from_word(word: u32) -> Self {
        (word % 0x1_0000) as u16
    }

    fn mark(i: usize) -> u32 {
        (i % 999) as u32 + 1
    }
}

// Neither 0 nor the number of a pass.
impl Element for u8 {
    ghost word_of = { λ n. n };

    ghost of_word = { lowest 0x100 };

    ghost mark_at = { byte_mark };

    fn to_word(self) -> u32 {
        u32::from(self)
    }

    fn from_word(word: u32) -> Self {
        (word % 0x100) as u8
    }

    fn mark(i: usize) -> u32 {
        (i % 250) as u32 + 3
    }
}

// A word that is not the given one.
fn other_word(word: u32) -> u32
    ensures { result ≡ other_of word }
{
    if word == 0 { 1 } else { 0 }
}

// A number that is not the given one.
pub fn other<T: Element>(x: T) -> T
    ensures { result ≡ other_in T.word_of T.of_word x }
{
    T::from_word(other_word(x.to_word()))
}

// An element of a buffer changed; none where none is named or the buffer ends before it.
#[tactic(auto, using(crate::proofs::SpoilLaws::changed_within, crate::proofs::SpoilLaws::changed_past))]
pub fn hit<T: Element>(list: &mut [T], at: Option<usize>)
    ensures { list.new ≡ hit_of (other_in T.word_of T.of_word) at list.old }
{
    if let Some(i) = at {
        if i < list.len() {
            list[i] = other(list[i]);
        }
    }
}
