// The number of an answer, and its further answers through references.
ghost use Rattle.std.specs.Prelude.{◌≡◌};
ghost use Rattle.chess_corners.specs.Told.{number_of, Counted};

use refusals::Refusal;

// A call that hands out nothing beside its number.
pub fn tell(answer: Result<(), Refusal>) -> u32
    ensures { result ≡ number_of answer }
{
    match answer {
        Ok(()) => 0,
        Err(refusal) => refusal.into(),
    }
}

// How many there are of what was asked for.
pub fn tell_count(answer: Result<usize, Refusal>, count: &mut usize) -> u32
    ensures { Counted answer count.old result count.new }
{
    match answer {
        Ok(found) => {
            *count = found;
            0
        }
        Err(refusal) => refusal.into(),
    }
}
