// What replacing and dropping test alike.
ghost use Rattle.std.specs.Prelude.{◌≡◌};
ghost use Rattle.coverage.specs.Steps.{tests_of};

use refusals::Refusal;

pub fn of_number(width: usize, height: usize, count: usize, number: usize) -> Result<(), Refusal>
    ensures { result ≡ tests_of width height count number }
{
    if !imageview::is_size(width, height) {
        return Err(Refusal::BadImage);
    }
    if 4096 < count {
        return Err(Refusal::TooMany);
    }
    if count <= number {
        return Err(Refusal::NoSuchCorner);
    }
    Ok(())
}
