// Pixels of a row that may be peaks, gathered before the window of any is tested: nothing here branches on a value.
ghost use Rattle.std.specs.Prelude.{◌≡◌, ◌++◌, ◌+◌, ◌≤◌, length};
ghost use Rattle.std.specs.Float.Ieee.{lt};
ghost use Rattle.shapes.specs.Tests.{some};
ghost use Rattle.peaks.specs.Peak.{floor_of};
ghost use Rattle.peaks.specs.Listed.{between};
ghost use Rattle.peaks.specs.Steps.{scan_of, run_at, stands_out, beats_six};

use crate::Response;
use crate::list::Listed;

impl Response<'_> {
    // Lists those of the n pixels from `from` on that stand out in their row. Groups of eight with nothing above the floor are passed over.
    pub fn gather(&self, from: usize, n: usize, list: &mut Listed<1280>)
        requires few { n ≤ 256 }
        requires room { length list.old + n ≤ 1280 }
        requires one_before { 1 ≤ from }
        requires one_after { from + n + 1 ≤ length self.now.values.now }
        ensures { list.new ≡ list.old ++ between from n (stands_out self.now.values.now (floor_of (scan_of self.now))) }
    {
        // A copy, whose fields a write to a list cannot change: they stay in registers.
        let here = *self;
        let floor = self.floor();
        let whole = n / 8;
        let mut groups = Listed::<32>::new();
        groups.add(0, whole, |g| here.any_of_eight(floor, from + 8 * g));
        for j in 0..groups.len() {
            list.add(from + 8 * groups.at(j), 8, |k| here.stands_out(floor, k));
        }
        list.add(
            from + 8 * whole,
            n - 8 * whole,
            |k| here.stands_out(floor, k),
        );
    }

    // Whether one of the eight values from `at` on is above the floor: written out, since a loop would branch.
    #[tactic(auto, unfolding(shapes::specs::Tests::some))]
    fn any_of_eight(&self, floor: f32, at: usize) -> bool
        requires { at + 8 ≤ length self.now.values.now }
        ensures { result ≡ some 8 (λ i. lt floor (run_at self.now.values.now at i)) }
    {
        (floor < self.values[at + 0])
            | (floor < self.values[at + 1])
            | (floor < self.values[at + 2])
            | (floor < self.values[at + 3])
            | (floor < self.values[at + 4])
            | (floor < self.values[at + 5])
            | (floor < self.values[at + 6])
            | (floor < self.values[at + 7])
    }

    // Whether a pixel is above the floor and beats those before and after it.
    fn stands_out(&self, floor: f32, k: usize) -> bool
        requires one_before { 1 ≤ k }
        requires one_after { k + 2 ≤ length self.now.values.now }
        ensures { result ≡ stands_out self.now.values.now floor k }
    {
        let v = self.values[k];
        (floor < v) & (self.values[k - 1] < v) & (self.values[k + 1] <= v)
    }

    // Whether a pixel beats the three above it and the three below.
    pub fn beats_six(&self, k: usize) -> bool
        requires row_before { self.now.width + 1 ≤ k }
        requires row_after { k + self.now.width + 2 ≤ length self.now.values.now }
        ensures { result ≡ beats_six self.now.values.now self.now.width k }
    {
        let v = self.values[k];
        (self.values[k - self.width - 1] < v)
            & (self.values[k - self.width] < v)
            & (self.values[k - self.width + 1] < v)
            & (self.values[k + self.width - 1] <= v)
            & (self.values[k + self.width] <= v)
            & (self.values[k + self.width + 1] <= v)
    }

    // Reads every sixteenth of the n values from `from` on, so that the processor has all of them at hand. How many of those are above the floor is of no
    // use, but a read whose value is not asked for is left out by the compiler.
    pub fn read_ahead(&self, from: usize, n: usize) -> usize
        requires fits { from + n ≤ length self.now.values.now }
        requires few { n ≤ 256 }
        ensures { result ≤ n }
    {
        let floor = self.floor();
        let mut count = 0;
        for i in 0..n.div_ceil(16) {
            count += usize::from(floor < self.values[from + 16 * i]);
        }
        count
    }
}
