// What is wrong with a record, by name and by number.
ghost use Rattle.std.specs.Prelude.{◌≡◌};
ghost use Rattle.salvage.specs.Faults.{code_of};

/// What is wrong with a record of a corner file. The number is the one that the list of faults has.
#[derive(Clone, Copy, Debug, PartialEq, Eq)]
pub enum Fault {
    Cut = 1,
    NotFinite = 2,
    Outside = 3,
}

impl From<Fault> for u16 {
    ghost from_gives = { λ fault number. number ≡ code_of fault };

    fn from(fault: Fault) -> u16 {
        fault as u16
    }
}
