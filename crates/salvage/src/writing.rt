// The outputs: kept records one behind the other, and number and fault of each dropped one.
ghost use Rattle.std.specs.Prelude.{◌≡◌, [], ◌∷◌, ◌+◌, ◌≤◌, length};
ghost use Rattle.std.proofs.lemmas.List.Edits.{sets};
ghost use Rattle.salvage.specs.Faults.{told};
ghost use Rattle.salvage.specs.Records.{whole_of};
ghost use Rattle.salvage.specs.Steps.{Room, WholeRoom, Saving, Writing, Before, Next};

use crate::{Fault, Frame, Saved, records};

// The whole records, and then the one that is cut.
pub fn save(frame: Frame, file: &[u8], out: &mut [u8], faults: &mut [u16]) -> Saved
    requires { Room frame.width frame.height file.now (length out.old) (length faults.old) }
    ensures { Saving frame.width frame.height file.now out.old faults.old result out.new faults.new }
{
    let whole = file.len() / 12;
    let kept = write_whole(frame, file, out, faults);
    let dropped = whole - kept;
    if file.len() % 12 == 0 {
        return Saved { kept, dropped };
    }
    write_fault(faults, 2 * dropped, whole as u16, Fault::Cut.into());
    Saved {
        kept,
        dropped: dropped + 1,
    }
}

// The whole records; how many of them were kept.
fn write_whole(frame: Frame, file: &[u8], out: &mut [u8], faults: &mut [u16]) -> usize
    requires { WholeRoom frame.width frame.height file.now (length out.old) (length faults.old) }
    ensures { Writing frame.width frame.height file.now (whole_of file.now) out.old faults.old result out.new faults.new }
{
    let mut kept = 0;
    for i in 0..file.len() / 12 {
        let fault = frame.fault_at(file, i);
        kept = write_record(file, i, fault, kept, out, faults);
    }
    kept
}

// Record i with its fault, where `kept` records before it were kept; how many are kept now.
fn write_record(
    file: &[u8],
    i: usize,
    fault: Option<Fault>,
    kept: usize,
    out: &mut [u8],
    faults: &mut [u16],
) -> usize
    requires { Before file.now i (told fault) kept (length out.old) (length faults.old) }
    ensures { Next file.now i (told fault) kept out.old faults.old result out.new faults.new }
{
    match fault {
        None => {
            copy_record(records::record_of(file, i), out, 12 * kept);
            kept + 1
        }
        Some(fault) => {
            write_fault(faults, 2 * (i - kept), i as u16, fault.into());
            kept
        }
    }
}

// The twelve bytes of a record, to the output from `at` on.
fn copy_record(bytes: &[u8], out: &mut [u8], at: usize)
    requires record { length bytes.now ≡ 12 }
    requires room { at + 12 ≤ length out.old }
    ensures { out.new ≡ sets out.old at bytes.now }
{
    out[at..at + 12].copy_from_slice(bytes);
}

fn write_fault(faults: &mut [u16], at: usize, number: u16, fault: u16)
    requires { at + 2 ≤ length faults.old }
    ensures { faults.new ≡ sets faults.old at (number ∷ fault ∷ []) }
{
    faults[at] = number;
    faults[at + 1] = fault;
}
