// What merge-print and its replay have in common: which files are taken, records to numbers, and numbers to text.
#![tactic(auto)]

ghost use Rattle.std.specs.Prelude.{◌≡◌, ◌%◌, length};
ghost use Rattle.merge_text.specs.Text.{numbers, hex_digit, shown, numbers_of};

use refusals::Refusal;

/// How many numbers a file of so many bytes holds; refused where it is cut within a record, and where there are more than 4,096 records.
pub fn numbers_in(bytes: usize) -> Result<usize, Refusal>
    ensures { result ≡ numbers_of bytes }
{
    if 0 < bytes % 12 {
        return Err(Refusal::BadLength);
    }
    if 4096 < bytes / 12 {
        return Err(Refusal::TooMany);
    }
    Ok(bytes / 4)
}

/// The numbers that the bytes stand for, as many as the list takes.
#[tactic(auto, using(crate::proofs::TextLaws::none_yet, crate::proofs::TextLaws::one_more, crate::proofs::TextLaws::all_written))]
pub fn read_numbers(bytes: &[u8], list: &mut [f32])
    ensures { list.new ≡ numbers (length list.old) bytes.now }
{
    for (i, x) in list.iter_mut().enumerate() {
        *x = floats::f32_from_bits(words::word(bytes, 4 * i));
    }
}

/// A bit pattern in eight hex digits, and the byte that ends it.
pub fn hex(word: u32, end: u8) -> [u8; 9]
    ensures { result ≡ shown word end }
{
    [
        digit(word / 0x1000_0000),
        digit(word / 0x100_0000),
        digit(word / 0x10_0000),
        digit(word / 0x1_0000),
        digit(word / 0x1000),
        digit(word / 0x100),
        digit(word / 0x10),
        digit(word),
        end,
    ]
}

fn digit(n: u32) -> u8
    ensures { result ≡ hex_digit (n % 16) }
{
    match (n % 16) as u8 {
        d if d < 10 => b'0' + d,
        d => 55 + d,
    }
}
