// What a sample may be: a byte, or a word of which twelve bits are used.
ghost use Rattle.std.specs.Prelude.{◌≡◌, Bool, true, false, List, ℕ, ◌<◌, ◌≤◌, length, get_or, take, drop, fold, ◌&&◌, leb, refl};
ghost use Rattle.std.specs.Int.{abs_diff};
ghost use Rattle.imageview.specs.Levels.{row_low};

/// A sample of an image, of either width.
pub trait Sample: Copy {
    // The numbers of a row of samples, and whether twelve bits of each are used.
    ghost levels: { List Self → List ℕ };

    ghost deep: { Bool };

    /// The number of one sample of a row.
    fn level_at(row: &[Self], i: usize) -> u16
        requires { i < length row.now }
        ensures { result ≡ get_or (levels row.now) i 0 };

    /// How far two rows' samples of one index are apart, taken in the samples' own width.
    fn apart_at(a: &[Self], b: &[Self], i: usize) -> u16
        requires first { i < length a.now }
        requires second { i < length b.now }
        ensures { result ≡ abs_diff (get_or (levels a.now) i 0) (get_or (levels b.now) i 0) };

    /// Whether no sample of a row is above the greatest; no byte is.
    fn are_low(row: &[Self]) -> bool
        ensures answer { result ≡ row_low (levels row.now) (length row.now) }
        ensures bytes_low { deep ≡ false → result ≡ true };

    ghost length_levels: { (row : List Self) → length (levels row) ≡ length row };

    ghost levels_take: { (n : ℕ) (row : List Self) → levels (take n row) ≡ take n (levels row) };

    ghost levels_drop: { (n : ℕ) (row : List Self) → levels (drop n row) ≡ drop n (levels row) };
}

impl Sample for u8 {
    ghost levels = { λ row. row };

    ghost deep = { false };

    ghost length_levels = { λ row. refl };

    ghost levels_take = { λ n row. refl };

    ghost levels_drop = { λ n row. refl };

    fn level_at(row: &[u8], i: usize) -> u16 {
        row[i] as u16
    }

    fn apart_at(a: &[u8], b: &[u8], i: usize) -> u16 {
        a[i].abs_diff(b[i]) as u16
    }

    fn are_low(_row: &[u8]) -> bool {
        true
    }
}

impl Sample for u16 {
    ghost levels = { λ row. row };

    ghost deep = { true };

    ghost length_levels = { λ row. refl };

    ghost levels_take = { λ n row. refl };

    ghost levels_drop = { λ n row. refl };

    fn level_at(row: &[u16], i: usize) -> u16 {
        row[i]
    }

    fn apart_at(a: &[u16], b: &[u16], i: usize) -> u16 {
        a[i].abs_diff(b[i])
    }

    #[tactic(auto, using(crate::proofs::LevelLaws::fold_is_row_low))]
    fn are_low(row: &[u16]) -> bool {
        words_low(row)
    }
}

// Whether no word is above the greatest sample; every one is looked at, so that the compiler takes many at a time.
fn words_low(row: &[u16]) -> bool
    ensures { result ≡ fold (λ (low : Bool) (sample : ℕ). low && leb sample 4095) true row.now }
{
    row.iter().fold(true, |low, &sample| low & (sample <= 4095))
}
