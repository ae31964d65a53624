// Spoiling: one bit of what is stored, or one element of what a call wrote. What is taken goes round from turn to turn.
ghost use Rattle.std.specs.Prelude.{◌≡◌};
ghost use Rattle.words.specs.Words.{word_at};
ghost use Rattle.replay.specs.Spoil.{pick_of, round_of, bit_of, mask_of, flipped, judged_at, raised_of, spoilt_at, other_of, hit_number};

// A bit of the word at a place of a case, which was flipped.
#[derive(Clone, Copy, Debug, PartialEq)]
pub struct Spoilt {
    pub place: usize,
    pub bit: usize,
}

// The words that are judged: the answer's number, and those that follow one after the other from another place on. They are so many together.
#[derive(Clone, Copy, Debug, PartialEq)]
pub struct Judged {
    pub words: usize,
    pub number: usize,
    pub next: usize,
}

// Which of n things is taken at a turn.
pub fn pick(turn: u32, n: usize) -> usize
    ensures { result ≡ pick_of turn n }
{
    if n == 0 { 0 } else { (turn as usize) % n }
}

// A number that goes round with the turns and with the n things, for the bit.
fn round(turn: u32, n: usize) -> usize
    ensures { result ≡ round_of turn n }
{
    if n == 0 {
        return 0;
    }
    (turn as usize) / n + 5 * ((turn as usize) % n)
}

// The bit of a word that is flipped: of a NaN one without which it is none.
fn bit_of(word: u32, round: usize) -> usize
    ensures { result ≡ bit_of word round }
{
    match word {
        0x7fc0_0000 => 22 + round % 9,
        0x7ff8_0000 => 19 + round % 12,
        _ => round % 32,
    }
}

// The bit that is flipped of the word at a place, where n words are judged.
pub fn bit_for(case: &[u8], place: usize, turn: u32, n: usize) -> usize
    ensures { result ≡ bit_of (word_at case.now place) (round_of turn n) }
{
    bit_of(words::word(case, place), round(turn, n))
}

// A bit of a byte by itself.
fn mask(bit: usize) -> u8
    ensures { result ≡ mask_of bit }
{
    1 << (bit % 8)
}

// One bit of the word at a place, the other way; flipped again it is as it was.
pub fn flip(case: &mut [u8], place: usize, bit: usize)
    ensures { case.new ≡ flipped case.old place bit }
{
    if case.len() <= bit / 8 {
        return;
    }
    if case.len() - bit / 8 <= place {
        return;
    }
    case[place + bit / 8] ^= mask(bit);
}

// Flips a bit of one of the judged words.
pub fn spoil(case: &mut [u8], turn: u32, judged: Judged) -> Spoilt
    ensures value { result ≡ spoilt_at case.old turn judged.words (judged_at judged.number judged.next (pick_of turn judged.words)) 0 }
    ensures case_after { case.new ≡ flipped case.old result.place result.bit }
{
    let place = judged.place(pick(turn, judged.words));
    spoil_at(case, turn, judged.words, place, 0)
}

// The same of the word at a place, where n are judged, of which only bits from `low` up tell one answer from another.
pub fn spoil_at(case: &mut [u8], turn: u32, n: usize, place: usize, low: usize) -> Spoilt
    ensures value { result ≡ spoilt_at case.old turn n place low }
    ensures case_after { case.new ≡ flipped case.old result.place result.bit }
{
    let bit = raised(bit_for(case, place, turn, n), low);
    flip(case, place, bit);
    Spoilt { place, bit }
}

fn raised(bit: usize, low: usize) -> usize
    ensures { result ≡ raised_of bit low }
{
    if low <= bit { bit } else { low }
}

impl Judged {
    // Where the judged word number i stands.
    pub fn place(self, i: usize) -> usize
        ensures { result ≡ judged_at self.number self.next i }
    {
        if i == 0 {
            self.number
        } else {
            crate::place(self.next, i - 1)
        }
    }
}

// A number by itself, changed where its first element is aimed at.
pub fn hit_number(n: usize, at: Option<usize>) -> usize
    ensures { result ≡ hit_number n at }
{
    if at != Some(0) {
        return n;
    }
    if n == 0 { 1 } else { 0 }
}
