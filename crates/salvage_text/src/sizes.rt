// A size in decimal digits.
ghost use Rattle.std.specs.Prelude.{◌≡◌, ◌+◌, ◌-◌, ◌*◌, ◌≤◌, min};
ghost use Rattle.salvage_text.specs.Sizes.{is_digit, most, size_of};

/// The width or height that a word of the command line stands for, if it is one. Every size above the greatest is refused alike, so reading stops to
/// count there.
#[tactic(auto, using(crate::proofs::SizeLaws::no_word, crate::proofs::SizeLaws::whole_word, crate::proofs::SizeLaws::one_digit, crate::proofs::SizeLaws::no_digit, crate::proofs::SizeLaws::at_end, crate::proofs::SizeLaws::from_digit))]
pub fn size_of(word: &[u8]) -> Option<usize>
    ensures { result ≡ size_of word.now }
{
    if word.is_empty() {
        return None;
    }
    let mut size = 0;
    for digit in word {
        if !is_digit(*digit) {
            return None;
        }
        size = with_digit(size, *digit);
    }
    Some(size)
}

fn is_digit(byte: u8) -> bool
    ensures { result ≡ is_digit byte }
{
    (b'0' <= byte) & (byte <= b'9')
}

// A number with one digit more behind it.
fn with_digit(size: usize, digit: u8) -> usize
    requires { (size ≤ most) × (48 ≤ digit) }
    ensures { result ≡ min most (size * 10 + (digit - 48)) }
{
    (size * 10 + (digit - b'0') as usize).min(4097)
}
