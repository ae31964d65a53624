// The ring: its components as unsigned offsets within the radius, and where the samples of a pixel stand in the image.
ghost use Rattle.std.specs.Prelude.{◌≡◌, true, ◌+◌, ◌-◌, ◌≤◌, nat_abs, replicate, IfOk, IfErr};
ghost use Rattle.pixel_response.specs.Steps.{Wrote};
ghost use Rattle.response.specs.Region.{moved, radius_fits, ring_within};
ghost use Rattle.response.specs.StepsStarts.{Offsets, Around, IsRingRefusedBy, start_of, Startable};

use imageview::{Image, Sample};
use refusals::Refusal;

// The 21 pairs of offsets from a pixel to its samples, the ring's and then the cross's, 10 added to each.
#[derive(Clone, Copy)]
pub struct Ring {
    pub offsets: [u8; 42],
    pub radius: usize,
    ghost radius_most: { radius ≤ 10 },
    ghost around: { Around radius offsets },
}

impl Ring {
    // The ring of sixteen pairs (dx, dy), where the radius fits and every component is within it.
    pub fn new(ring: &[i32; 32], radius: usize) -> Result<Ring, Refusal>
        ensures radius { IfOk result (λ r. r.radius ≡ radius) }
        ensures offsets { IfOk result (λ r. Offsets ring.now r.offsets) }
        ensures radius_fits { IfOk result (λ _. radius_fits radius ≡ true) }
        ensures within { IfOk result (λ _. ring_within radius ring.now ≡ true) }
        ensures refused { IfErr result (IsRingRefusedBy radius ring.now) }
    {
        if (radius < 1) | (10 < radius) {
            return Err(Refusal::BadRadius);
        }
        if !is_within(ring, radius) {
            return Err(Refusal::BadRing);
        }
        Ok(Ring {
            offsets: offsets_of(ring),
            radius,
        })
    }

    // Where the 21 samples of the pixel (x, y) stand.
    pub fn starts<S: Sample>(&self, image: &Image<S>, x: usize, y: usize) -> [usize; 21]
        requires { Startable self.now.offsets x y }
        ensures { Wrote 0 21 0 (start_of self.now.offsets image.now.pitch x y) (replicate 21 0) result }
    {
        let pitch = image.pitch();
        let mut starts = [0usize; 21];
        for k in 0..21usize {
            let column = moved_by(x, self.offsets[2 * k]);
            let line = moved_by(y, self.offsets[2 * k + 1]);
            starts[k] = line * pitch + column;
        }
        starts
    }
}

// Whether every component is within the radius.
fn is_within(ring: &[i32; 32], radius: usize) -> bool
    ensures { result ≡ ring_within radius ring.now }
{
    let mut within = true;
    for z in ring {
        within = within & (z.unsigned_abs() as usize <= radius);
    }
    within
}

// A component plus 10.
fn offset_of(z: i32) -> u8
    requires { nat_abs z ≤ 10 }
    ensures { result ≡ moved 10 z }
{
    (z + 10) as u8
}

// The offsets of the ring's pairs, and of the cross's: the pixel, above, below, right, left.
fn offsets_of(ring: &[i32; 32]) -> [u8; 42]
    requires { ring_within 10 ring.now ≡ true }
    ensures { Offsets ring.now result }
{
    let mut offsets = [10u8; 42];
    offsets[35] = 9;
    offsets[37] = 11;
    offsets[38] = 11;
    offsets[40] = 9;
    for k in 0..32usize {
        offsets[k] = offset_of(ring[k]);
    }
    offsets
}

// A coordinate moved by a component.
fn moved_by(x: usize, offset: u8) -> usize
    requires { (x ≤ 4096) × (10 ≤ x + offset) }
    ensures moved { result ≡ x + offset - 10 }
    ensures few { result ≤ 8192 }
{
    x + offset as usize - 10
}
