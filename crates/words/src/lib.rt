// Numbers written as bytes, as records and lists of answers have them.
#![tactic(auto)]

ghost use Rattle.std.specs.Prelude.{◌≡◌};
ghost use Rattle.words.specs.Words.{signed_of, word_at, long_at};

// The 32-bit word at a byte's place, lowest byte first; 0 where it does not lie whole within the bytes.
#[tactic(auto, unfolding(crate::specs::Words::word_at))]
pub fn word(bytes: &[u8], at: usize) -> u32
    ensures { result ≡ word_at bytes.now at }
{
    if bytes.len() < 4 || bytes.len() - 4 < at {
        return 0;
    }
    u32::from_le_bytes([bytes[at], bytes[at + 1], bytes[at + 2], bytes[at + 3]])
}

// Two words as one, the low one first; 0 where they do not lie whole within the bytes. Not generic with `word`: its sum of two words is not the sum of four bytes.
#[tactic(auto, unfolding(crate::specs::Words::long_at))]
pub fn long(bytes: &[u8], at: usize) -> u64
    ensures { result ≡ long_at bytes.now at }
{
    if bytes.len() < 8 || bytes.len() - 8 < at {
        return 0;
    }
    word(bytes, at) as u64 + word(bytes, at + 4) as u64 * 0x1_0000_0000
}

// The same word with its sign.
#[tactic(auto, unfolding(crate::specs::Words::signed_of))]
pub fn int(bytes: &[u8], at: usize) -> i32
    ensures { result ≡ signed_of (word_at bytes.now at) }
{
    word(bytes, at).cast_signed()
}
