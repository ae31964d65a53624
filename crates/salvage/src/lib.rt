// Saves the whole, finite records of a corner file that lie in an image, and lists the others. Not in the Rust.
#![tactic(auto)]

mod faults;
mod records;
mod writing;

ghost use Rattle.salvage.specs.Call.{Done};

pub use faults::Fault;
use records::Frame;
use refusals::Refusal;

/// How many records were kept and how many dropped.
#[derive(Clone, Copy, Debug, PartialEq, Eq)]
pub struct Saved {
    pub kept: usize,
    pub dropped: usize,
}

// Writes the records of `file` that can be used to `out`, as they are and in order, and the number and the fault of each other one to `faults`.
#[tactic(auto, unfolding(crate::specs::Call::way_of))]
pub fn salvage_corners(
    file: &[u8],
    width: usize,
    height: usize,
    out: &mut [u8],
    faults: &mut [u16],
) -> Result<Saved, Refusal>
    ensures { Done width height file.now out.old faults.old result out.new faults.new }
{
    if !imageview::is_size(width, height) {
        return Err(Refusal::BadImage);
    }
    if 4096 < file.len() / 12 {
        return Err(Refusal::TooMany);
    }
    let frame = Frame { width, height };
    if frame.is_short(file, out.len(), faults.len()) {
        return Err(Refusal::BadOut);
    }
    Ok(writing::save(frame, file, out, faults))
}
