// Numbers in a list with room for N, and the two ways in which they are chosen. Neither branches on its test: a number is always written, and counts
// where it passes.
ghost use Rattle.std.specs.Prelude.{◌≡◌, Bool, List, [], ◌++◌, ℕ, ◌+◌, ◌^◌, ◌≤◌, ◌<◌, length, get_or, take, drop};
ghost use Rattle.peaks.specs.Listed.{between, picked, Tells, TellsListed};

use std::marker::Model;

#[derive(Drop)]
pub struct Listed<const N: usize> {
    numbers: [u32; N],
    len: usize,
}

impl<const N: usize> Model for Listed<N> {
    ghost Value = { List ℕ };

    ghost view = { λ l. take l.len l.numbers };

    ghost invariant = { λ l. (l.len ≤ N) × (N ≤ 2 ^ 32) };
}

impl<const N: usize> Listed<N> {
    pub fn new() -> Self
        requires { N ≤ 2 ^ 32 }
        ensures { result ≡ [] }
    {
        Listed {
            numbers: [0; N],
            len: 0,
        }
    }

    pub fn len(&self) -> usize
        ensures { result ≡ length self.now }
    {
        self.len
    }

    // Number i of them.
    pub fn at(&self, i: usize) -> usize
        requires { i < length self.now }
        ensures { result ≡ get_or self.now i 0 }
    {
        let numbers = &self.numbers;
        numbers[i] as usize
    }

    // Keeps the first n.
    pub fn truncate(&mut self, n: usize)
        requires { n ≤ length self.old }
        ensures { self.new ≡ take n self.old }
    {
        self.len = n;
    }

    // Adds those of the n numbers from `from` on that pass.
    pub fn add<F: Fn(usize) -> bool>(&mut self, from: usize, n: usize, passes: F)
        requires room { length self.old + n ≤ N }
        requires small { from + n ≤ 2 ^ 32 }
        requires callable { (k : ℕ) → from ≤ k → k < from + n → F.pre passes k }
        ensures { (p : ℕ → Bool) → Tells (F.post passes) p from n → self.new ≡ self.old ++ between from n p }
    {
        let mut len = self.len;
        for i in 0..n {
            let k = from + i;
            self.numbers[len] = k as u32;
            len += usize::from(passes(k));
        }
        self.len = len;
    }

    // Of those from number `first` on keeps the ones that pass.
    pub fn retain<F: Fn(usize) -> bool>(&mut self, first: usize, passes: F)
        requires order { first ≤ length self.old }
        requires callable { (i : ℕ) → first ≤ i → i < length self.old → F.pre passes (get_or self.old i 0) }
        ensures { (p : ℕ → Bool) → TellsListed (F.post passes) p self.old first → self.new ≡ take first self.old ++ picked (drop first self.old) p }
    {
        let mut len = first;
        for i in first..self.len {
            let k = self.numbers[i];
            self.numbers[len] = k;
            len += usize::from(passes(k as usize));
        }
        self.len = len;
    }
}
