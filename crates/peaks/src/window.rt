// The square window of a pixel: whether the pixel beats the other values in it, and how many of them are positive.
// The window is four pieces: the rows above, the left and the right of the pixel's own row, and the rows below.
ghost use Rattle.std.specs.Prelude.{◌≡◌, Bool, true, false, ◌+◌, ◌*◌, ◌≤◌, leb, length, Float};
ghost use Rattle.std.specs.Float.Ieee.{lt};
ghost use Rattle.shapes.specs.Numbers.{plus_zero};
ghost use Rattle.shapes.specs.Tests.{every};
ghost use Rattle.peaks.specs.Peak.{side, beats_at, count, highest, positives};
ghost use Rattle.peaks.specs.Steps.{scan_of, run_at, block_at, BlockFits, Framed, Right, TellsValue};

use crate::Response;

// Whether a pixel's value v beats a value w of its window that comes earlier in row order.
fn beats_earlier(v: f32, w: f32) -> bool
    ensures { result ≡ beats_at true v w }
{
    w < v
}

// Whether it beats one that comes later: of equal values the first can be a peak.
pub fn beats_later(v: f32, w: f32) -> bool
    ensures { result ≡ beats_at false v w }
{
    w <= v
}

impl Response<'_> {
    // Whether the pixel (x, y), which beats all on its right, beats every other value of its window too.
    pub fn is_highest(&self, x: usize, y: usize) -> bool
        requires window_inside { Framed (scan_of self.now) x y }
        requires right_beaten { Right (scan_of self.now) x y }
        ensures { result ≡ highest (scan_of self.now) x y }
    {
        let n = self.window;
        let at = y * self.width + x;
        let v = self.values[at];
        if !self.run_passes(at - n, n, |w| beats_earlier(v, w)) {
            return false;
        }
        if !self.rows_pass(at - n * self.width - n, |w| beats_earlier(v, w)) {
            return false;
        }
        self.rows_pass(at + self.width - n, |w| beats_later(v, w))
    }

    // Whether the window's rows above or below the pixel, of which the first begins at `start`, pass.
    fn rows_pass<F: Fn(f32) -> bool>(&self, start: usize, passes: F) -> bool
        requires rows_inside { BlockFits self.now.values.now start self.now.width (side (scan_of self.now)) self.now.window }
        requires callable { F.IsAlwaysCallable passes }
        ensures { (p : Float → Bool) → TellsValue (F.post passes) p → result ≡ every (self.now.window * side (scan_of self.now)) (λ j. p (block_at self.now.values.now start self.now.width (side (scan_of self.now)) j)) }
    {
        for r in 0..self.window {
            if !self.run_passes(start + r * self.width, 2 * self.window + 1, &passes) {
                return false;
            }
        }
        true
    }

    // Whether the n values from `start` on pass: four at once, without a branch between them, and then one after the other.
    pub fn run_passes<F: Fn(f32) -> bool>(&self, start: usize, n: usize, passes: F) -> bool
        requires run_inside { start + n ≤ length self.now.values.now }
        requires callable { F.IsAlwaysCallable passes }
        ensures { (p : Float → Bool) → TellsValue (F.post passes) p → result ≡ every n (λ i. p (run_at self.now.values.now start i)) }
    {
        let fours = n / 4;
        for r in 0..fours {
            let at = start + r * 4;
            let four = passes(self.values[at + 0])
                & passes(self.values[at + 1])
                & passes(self.values[at + 2])
                & passes(self.values[at + 3]);
            if !four {
                return false;
            }
        }
        for i in fours * 4..n {
            if !passes(self.values[start + i]) {
                return false;
            }
        }
        true
    }

    // Whether enough other values of the window of (x, y) are positive. Those beside it are counted first, since they often suffice.
    pub fn has_cluster(&self, x: usize, y: usize) -> bool
        requires window_inside { Framed (scan_of self.now) x y }
        ensures { result ≡ leb self.now.cluster (positives (scan_of self.now) x y) }
    {
        let n = self.window;
        let at = y * self.width + x;
        let left = self.positive_run(at - n, n);
        let right = self.positive_run(at + 1, n);
        if self.cluster <= left + right {
            return true;
        }
        let up = self.positive_rows(at - n * self.width - n);
        if self.cluster <= left + right + up {
            return true;
        }
        let down = self.positive_rows(at + self.width - n);
        self.cluster <= left + right + up + down
    }

    // How many of the n values from `start` on are positive.
    fn positive_run(&self, start: usize, n: usize) -> u32
        requires run_inside { start + n ≤ length self.now.values.now }
        requires few { n ≤ 17 }
        ensures { result ≡ count n (λ i. lt plus_zero (run_at self.now.values.now start i)) }
    {
        let mut sum = 0;
        for i in 0..n {
            sum += u32::from(0.0 < self.values[start + i]);
        }
        sum
    }

    // How many values of the window's rows above or below the pixel, of which the first begins at `start`, are positive.
    fn positive_rows(&self, start: usize) -> u32
        requires rows_inside { BlockFits self.now.values.now start self.now.width (side (scan_of self.now)) self.now.window }
        ensures { result ≡ count (self.now.window * side (scan_of self.now)) (λ j. lt plus_zero (block_at self.now.values.now start self.now.width (side (scan_of self.now)) j)) }
    {
        let mut sum = 0;
        for r in 0..self.window {
            sum += self.positive_run(start + r * self.width, 2 * self.window + 1);
        }
        sum
    }
}
