// The first sample above the maximum: of bytes in blocks, and one by one from the block on that has one. Samples of two bytes, and where they are written.
ghost use Rattle.std.specs.Prelude.{◌≡◌, true, ◌+◌, ◌*◌, ◌≤◌, length, get_or};
ghost use Rattle.shapes.specs.Lists.{tabulated};
ghost use Rattle.graymap.specs.Call.{first_above, sample_in};
ghost use Rattle.graymap.specs.Steps.{higher_of, highest_of};

// The number of the first of n samples above the maximum, or n.
#[tactic(auto, using(crate::proofs::SampleLaws::above_none, crate::proofs::SampleLaws::above_all, crate::proofs::SampleLaws::above_block))]
pub fn first_above(samples: &[u8], maximum: u8, n: usize) -> usize
    requires { n ≤ length samples.now }
    ensures { result ≡ first_above (λ i. get_or samples.now i 0) maximum n }
{
    if maximum == 255 {
        return n;
    }
    for block in 0..n / 256 {
        let from = 256 * block;
        if maximum < highest(samples, from) {
            return first_from(samples, maximum, from, n);
        }
    }
    first_from(samples, maximum, 256 * (n / 256), n)
}

// The highest of 256 samples. The compiler makes vectors of it.
#[tactic(auto, using(crate::proofs::SampleLaws::highest_none, crate::proofs::SampleLaws::highest_more))]
fn highest(samples: &[u8], from: usize) -> u8
    requires { from + 256 ≤ length samples.now }
    ensures { result ≡ highest_of (λ i. get_or samples.now (from + i) 0) 256 }
{
    let mut top = 0;
    for i in 0..256 {
        top = higher(top, samples[from + i]);
    }
    top
}

// One comparison, which the compiler makes a vector's maximum.
fn higher(a: u8, b: u8) -> u8
    ensures { result ≡ higher_of a b }
{
    if a < b { b } else { a }
}

// None of the samples before `from` is above the maximum.
#[tactic(auto, using(crate::proofs::SampleLaws::above_passed, crate::proofs::SampleLaws::above_found))]
fn first_from(samples: &[u8], maximum: u8, from: usize, n: usize) -> usize
    requires upto { from ≤ n }
    requires long { n ≤ length samples.now }
    requires none_before { first_above (λ i. get_or samples.now i 0) maximum from ≡ from }
    ensures { result ≡ first_above (λ i. get_or samples.now i 0) maximum n }
{
    for i in from..n {
        if maximum < samples[i] {
            return i;
        }
    }
    n
}

// The number of the first of n samples of two bytes above the maximum, or n.
// Beside `first_from`, which begins anywhere: with the sample as a closure both loops would be one line shorter and each call a line longer.
#[tactic(auto, using(crate::proofs::SampleLaws::above_none, crate::proofs::SampleLaws::above_passed, crate::proofs::SampleLaws::above_found))]
pub fn first_above_deep(left: &[u8], maximum: u16, n: usize) -> usize
    requires { 2 * n ≤ length left.now }
    ensures { result ≡ first_above (sample_in true left.now) maximum n }
{
    for i in 0..n {
        if maximum < sample(left, i) {
            return i;
        }
    }
    n
}

// Sample i of two bytes, the high one first.
fn sample(left: &[u8], i: usize) -> u16
    requires { 2 * i + 2 ≤ length left.now }
    ensures { result ≡ sample_in true left.now i }
{
    let high = left[2 * i] as u16;
    let low = left[2 * i + 1] as u16;
    high * 256 + low
}

// Writes as many samples as the buffer holds.
pub fn write_samples(left: &[u8], out: &mut [u16])
    requires { 2 * length out.old ≤ length left.now }
    ensures { out.new ≡ tabulated (length out.old) (sample_in true left.now) }
{
    for i in 0..out.len() {
        out[i] = sample(left, i);
    }
}
