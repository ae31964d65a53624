// The records of a file: what is wrong with one, and how many have nothing wrong.
ghost use Rattle.std.specs.Prelude.{◌≡◌, ◌||◌, cond, ◌*◌, ◌/◌, ◌%◌, ◌≤◌, ◌<◌, ltb, length};
ghost use Rattle.std.specs.Float.{binary32};
ghost use Rattle.std.specs.Float.Ieee.{of_bits};
ghost use Rattle.std.specs.Float.Ieee.Scale.{finite};
ghost use Rattle.imageview.specs.Steps.{Sized};
ghost use Rattle.salvage.specs.Faults.{told};
ghost use Rattle.salvage.specs.Records.{within_axis, fault_of, kept_of, dropped_of, whole_of};
ghost use Rattle.salvage.specs.Steps.{record_of, Counted};

use crate::Fault;

// The image that the records have to lie in. Its size has passed its test.
#[derive(Clone, Copy)]
pub struct Frame {
    pub width: usize,
    pub height: usize,
    ghost sized: { Sized width height },
}

impl Frame {
    // Whether one of the outputs, of so many bytes and numbers, is shorter than what goes into it.
    pub fn is_short(self, file: &[u8], out: usize, faults: usize) -> bool
        requires { whole_of file.now ≤ 4096 }
        ensures { result ≡ (ltb out (length (kept_of self.width self.height file.now (whole_of file.now))) || ltb faults (length (dropped_of self.width self.height file.now))) }
    {
        let whole = file.len() / 12;
        // Where any counts fit nothing is counted.
        if (12 * whole <= out) & (2 * whole + 2 <= faults) {
            return false;
        }
        let kept = self.count_kept(file);
        (out < 12 * kept) | (faults < 2 * (whole - kept + cut_of(file.len())))
    }

    // How many of the whole records have nothing wrong.
    fn count_kept(self, file: &[u8]) -> usize
        requires { whole_of file.now ≤ 4096 }
        ensures { Counted self.width self.height file.now (whole_of file.now) result }
    {
        let mut kept = 0;
        for i in 0..file.len() / 12 {
            if self.fault_at(file, i).is_none() {
                kept += 1;
            }
        }
        kept
    }

    // The fault of whole record i.
    #[tactic(auto, using(crate::proofs::RecordLaws::fault_alone))]
    pub fn fault_at(self, file: &[u8], i: usize) -> Option<Fault>
        requires { i < whole_of file.now }
        ensures { told result ≡ fault_of self.width self.height file.now i }
    {
        self.fault_of(record_of(file, i))
    }

    // The fault of a record that is lent alone: its length is known to the compiler, so reading its numbers costs no test.
    #[tactic(auto, unfolding(crate::specs::Records::fault_of))]
    fn fault_of(self, bytes: &[u8]) -> Option<Fault>
        ensures { told result ≡ fault_of self.width self.height bytes.now 0 }
    {
        let x = words::word(bytes, 0);
        let y = words::word(bytes, 4);
        let strength = words::word(bytes, 8);
        if !(is_finite(x) & is_finite(y) & is_finite(strength)) {
            return Some(Fault::NotFinite);
        }
        if !(is_within(x, self.width) & is_within(y, self.height)) {
            return Some(Fault::Outside);
        }
        None
    }
}

// Of a file of n bytes: 1 where its last record is cut.
fn cut_of(n: usize) -> usize
    ensures { result ≡ cond (ltb 0 (n % 12)) 1 0 }
{
    if 0 < n % 12 { 1 } else { 0 }
}

// The bytes of whole record i.
pub fn record_of(file: &[u8], i: usize) -> &[u8]
    requires { i < whole_of file.now }
    ensures { result.now ≡ record_of file.now i }
{
    &file[12 * i..12 * i + 12]
}

// Whether a bit pattern is a finite number's: its exponent is not all ones.
#[tactic(auto, using(crate::proofs::RecordLaws::finite_bits))]
fn is_finite(bits: u32) -> bool
    ensures { result ≡ finite (of_bits binary32 bits) }
{
    bits % 0x8000_0000 < 0x7f80_0000
}

// Whether the number of a bit pattern lies on an axis of n pixels.
fn is_within(bits: u32, n: usize) -> bool
    requires some { 1 ≤ n }
    requires few { n ≤ 4096 }
    ensures { result ≡ within_axis n (of_bits binary32 bits) }
{
    let v = floats::f32_from_bits(bits);
    let last = (n - 1) as u16;
    (0.0 <= v) & (v <= last as f32)
}
