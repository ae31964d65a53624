// The stored text of a case against what merge-print would print.

use refusals::Refusal;

// The text is the line of a refusal.
pub fn is_refused(text: &[u8], refusal: Refusal) -> bool {
    is_last(text, b"refused ", u32::from(refusal) as u64) == Some(true)
}

// It is a line a corner, and a line of `total` and the count.
pub fn are_corners(text: &[u8], list: &[f32], count: usize) -> bool {
    let (records, _) = list.as_chunks::<3>();
    let Some(corners) = records.get(..count) else {
        return false;
    };
    match behind_corners(text, corners) {
        Some(rest) => is_last(rest, b"total ", count as u64) == Some(true),
        None => false,
    }
}

// What follows the lines of the corners, if they are the stored ones.
fn behind_corners<'a>(text: &'a [u8], corners: &[[f32; 3]]) -> Option<&'a [u8]> {
    let mut rest = text;
    for [x, y, strength] in corners {
        rest = behind_number(rest, *x, b' ')?;
        rest = behind_number(rest, *y, b' ')?;
        rest = behind_number(rest, *strength, b'\n')?;
    }
    Some(rest)
}

fn behind_number<'a>(text: &'a [u8], x: f32, end: u8) -> Option<&'a [u8]> {
    text.strip_prefix(&merge_text::hex(floats::f32_to_bits(x), end))
}

// Whether a text is a word and a number with a line feed behind them; none where it begins otherwise.
fn is_last(text: &[u8], word: &[u8], n: u64) -> Option<bool> {
    let mut digits = [0u8; 20];
    let k = io::decimal(n, &mut digits);
    let rest = text.strip_prefix(word)?.strip_prefix(&digits[..k])?;
    Some(rest == b"\n".as_slice())
}
