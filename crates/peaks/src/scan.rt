// The scan: the peaks of a part of a row, and the loops that note, count and write with it. Pixels are named by their numbers in row order.
ghost use Rattle.std.specs.Prelude.{◌≡◌, Result, List, [], ◌++◌, ◌+◌, ◌-◌, ◌*◌, ◌/◌, ◌≤◌, ◌<◌, pos, length, take, drop, Float};
ghost use Rattle.std.specs.Float.Ieee.{of_int};
ghost use Rattle.std.specs.Float.{binary32};
ghost use Rattle.corners.specs.Corners.{corner, recorded};
ghost use Rattle.peaks.specs.Peak.{border, floor_of, is_peak};
ghost use Rattle.peaks.specs.Call.{peak_at, peaks_of};
ghost use Rattle.peaks.specs.Listed.{between};
ghost use Rattle.peaks.specs.Steps.{scan_of, most_of, Bordered, InsideBorder, Part, Noted, Stands, Pixels, Follow, Written, all_recorded, Recorded};

use crate::Response;
use crate::list::Listed;
use crate::window::beats_later;
use corners::Corner;
use refusals::Refusal;

impl Response<'_> {
    // Writes the records of all peaks where there is room for them. Where there is room for any number, the peaks are sought once; else the first are
    // noted while they are counted, and those past the notes are sought again.
    pub fn record_all(&self, out: &mut [f32]) -> Result<usize, Refusal>
        ensures { Recorded (scan_of self.now) out.old result out.new }
    {
        let room = out.len() / 3;
        let mut list = Listed::<1280>::new();
        if self.most_peaks() <= room {
            return Ok(self.write(0, 0, &mut list, out));
        }
        let from = self.note(&mut list);
        let noted = list.len();
        if room < self.tally(from, &mut list) {
            return Err(Refusal::TooMany);
        }
        self.write_listed(&list, 0, out);
        Ok(self.write(noted, from, &mut list, out))
    }

    // No more peaks than squares of side window + 1 cover the pixels inside the border: no two peaks lie in one.
    fn most_peaks(&self) -> usize
        ensures { result ≡ most_of (scan_of self.now) }
    {
        let side = self.window + 1;
        let across = self.inner(self.width).div_ceil(side);
        let down = self.inner(self.height).div_ceil(side);
        across * down
    }

    // The columns or rows of so many that are inside the border.
    fn inner(&self, size: usize) -> usize
        ensures { result ≡ size - 2 * border (scan_of self.now) }
    {
        size.saturating_sub(2 * self.border())
    }

    fn border(&self) -> usize
        ensures value { result ≡ border (scan_of self.now) }
        ensures narrow { result ≤ 25 }
    {
        self.ring + self.window + self.refine
    }

    // max(threshold, 0).
    pub fn floor(&self) -> f32
        ensures { result ≡ floor_of (scan_of self.now) }
    {
        if 0.0 < self.threshold {
            self.threshold
        } else {
            0.0
        }
    }

    // Lists the first peaks, up to 1,024. Answers the pixel from which to go on. A `while`, here and below: each part says where the next begins.
    fn note(&self, list: &mut Listed<1280>) -> usize
        requires { list.old ≡ [] }
        ensures { Noted (scan_of self.now) list.new result }
    {
        let mut at = 0;
        while at < self.values.len() && list.len() <= 768 {
            at = self.list_from(at, list);
        }
        at
    }

    // How many peaks there are, where those before the pixel `from` are listed. The list stays.
    fn tally(&self, from: usize, list: &mut Listed<1280>) -> usize
        requires { Noted (scan_of self.now) list.old from }
        ensures total { result ≡ length (peaks_of (scan_of self.now)) }
        ensures list_stays { list.new ≡ list.old }
    {
        let noted = list.len();
        let mut count = noted;
        let mut at = from;
        while at < self.values.len() {
            at = self.list_from(at, list);
            count += list.len() - noted;
            list.truncate(noted);
        }
        count
    }

    // Writes the records of the peaks from the pixel `from` on, after those of the first n; there is room for all. Answers how many peaks there are.
    fn write(&self, n: usize, from: usize, list: &mut Listed<1280>, out: &mut [f32]) -> usize
        requires standing { Stands (scan_of self.now) n from }
        requires room { 3 * length (peaks_of (scan_of self.now)) ≤ length out.old }
        ensures total { result ≡ length (peaks_of (scan_of self.now)) }
        ensures written { (o : List Float) → length o ≡ length out.old → Written (scan_of self.now) o n from out.old → out.new ≡ all_recorded (scan_of self.now) o }
    {
        let mut total = n;
        let mut at = from;
        while at < self.values.len() {
            list.truncate(0);
            at = self.list_from(at, list);
            self.write_listed(list, total, out);
            total += list.len();
        }
        total
    }

    // Writes the records of the pixels listed, after the first n records.
    fn write_listed(&self, list: &Listed<1280>, n: usize, out: &mut [f32])
        requires pixels { Pixels (scan_of self.now) list.now }
        requires room { 3 * (n + length list.now) ≤ length out.old }
        ensures { Follow (scan_of self.now) list.now n out.old out.new }
    {
        for i in 0..list.len() {
            let k = list.at(i);
            put(out, n + i, k % self.width, k / self.width, self.values[k]);
        }
    }

    // Lists the peaks from the pixel k on, of at most 256 columns of its row. Answers the pixel from which to go on.
    fn list_from(&self, k: usize, list: &mut Listed<1280>) -> usize
        requires inside { k < length self.now.values.now }
        requires room { length list.old ≤ 1024 }
        ensures { Part (scan_of self.now) list.old list.new k result }
    {
        let width = self.width;
        let border = self.border();
        let y = k / width;
        let x = k % width;
        let row = y * width;
        let next = row + width;
        if (y < border) | (self.height <= y + border) | (width <= x + border) {
            return next;
        }
        if x < border {
            return row + border;
        }
        let n = width - border - x;
        if n <= 256 {
            self.list_columns(y, x, n, list);
            return next;
        }
        self.list_columns(y, x, 256, list);
        k + 256
    }

    // Lists the peaks of n columns of row y from `start` on, which are inside the border. The last row of their windows is read first, in one go: else each
    // window that is tested waits for it. What that answers is never above n, so the first branch is never taken.
    fn list_columns(&self, y: usize, start: usize, n: usize, list: &mut Listed<1280>)
        requires columns_inside { Bordered (scan_of self.now) y start n }
        requires room { length list.old ≤ 1024 }
        ensures { list.new ≡ list.old ++ between (y * self.now.width + start) n (peak_at (scan_of self.now)) }
    {
        let row = y * self.width;
        if n < self.read_ahead((y + self.window) * self.width + start, n) {
            return;
        }
        let before = list.len();
        self.gather(row + start, n, list);
        // A copy, whose fields a write to the list cannot change: they stay in registers.
        let here = *self;
        list.retain(before, |k| here.beats_six(k));
        list.retain(before, |k| here.is_peak(k - row, y));
    }

    // Whether the pixel (x, y), inside the border, is a peak. The rest of its window is read only where it beats all on its right.
    fn is_peak(&self, x: usize, y: usize) -> bool
        requires { InsideBorder (scan_of self.now) x y }
        ensures { result ≡ is_peak (scan_of self.now) x y }
    {
        let at = y * self.width + x;
        let v = self.values[at];
        if !self.run_passes(at + 1, self.window, |w| beats_later(v, w)) {
            return false;
        }
        if !(self.floor() < v) {
            return false;
        }
        if !self.is_highest(x, y) {
            return false;
        }
        self.has_cluster(x, y)
    }
}

// Writes the record of number n.
fn put(out: &mut [f32], n: usize, x: usize, y: usize, v: f32)
    requires room { 3 * n + 2 < length out.old }
    requires column { x < 4096 }
    requires row { y < 4096 }
    ensures { out.new ≡ recorded out.old n (corner (of_int binary32 (pos x)) (of_int binary32 (pos y)) v) }
{
    let x = x as u16 as f32;
    let y = y as u16 as f32;
    corners::put(out, n, Corner { x, y, strength: v });
}
