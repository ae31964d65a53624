// Binary graymaps of the bench cameras (Netpbm P5), read over a lent file. Not in the Rust.
#![tactic(auto)]

mod bytes;
mod header;
mod samples;

ghost use Rattle.std.specs.Prelude.{◌≡◌, true, false, ◌*◌, ◌≤◌, length, drop};
ghost use Rattle.imageview.specs.Image.{most, is_size};
ghost use Rattle.graymap.specs.Grammar.{header};
ghost use Rattle.graymap.specs.Call.{first_above, is_maximum, bytes_of, sample_in, pixels_of, sized_of, read_of, part_of, Done};

use header::Heading;
use refusals::Refusal;

/// A graymap that was read: its sizes, its maximum and where its pixels begin in the file.
#[derive(Clone, Copy, Debug, PartialEq, Eq)]
pub struct Graymap {
    pub width: usize,
    pub height: usize,
    pub maximum: usize,
    pub start: usize,
}

/// Why a graymap was not read: its first pixel above the maximum, by number, or a refusal.
#[derive(Clone, Copy, Debug, PartialEq, Eq)]
pub enum Unread {
    Above(usize),
    Refused(Refusal),
}

impl From<Refusal> for Unread {
    ghost use Rattle.graymap.specs.declared.Unread.TheVariants.{Refused};

    ghost from_gives = { λ refusal unread. unread ≡ Refused refusal };

    fn from(refusal: Refusal) -> Unread {
        Unread::Refused(refusal)
    }
}

// How reading a graymap of one byte a sample ends.
pub fn read_graymap(file: &[u8]) -> Result<Graymap, Unread>
    ensures { result ≡ read_of false file.now }
{
    read_as(file, false)
}

// How reading a graymap of two bytes a sample ends: its samples are written to a buffer that holds just them. A refusal writes nothing.
pub fn read_graymap_u16(file: &[u8], out: &mut [u16]) -> Result<Graymap, Unread>
    ensures { Done file.now out.old result out.new }
{
    let read = read_as(file, true)?;
    if out.len() != read.width * read.height {
        return Err(Unread::Refused(Refusal::BadBuffer));
    }
    samples::write_samples(&file[read.start..], out);
    Ok(read)
}

// The pixels of a file that was read, a part of its own bytes; the empty part where it was refused, or where there is no such part.
pub fn pixels(file: &[u8], read: Result<Graymap, Unread>) -> &[u8]
    ensures { result.now ≡ part_of file.now read }
{
    match read {
        Ok(graymap) => part_from(file, graymap.start),
        Err(_) => &file[0..0],
    }
}

// The bytes from a place on.
fn part_from(file: &[u8], start: usize) -> &[u8]
    ensures { result.now ≡ drop start file.now }
{
    if start <= file.len() {
        return &file[start..];
    }
    &file[0..0]
}

// Either call's reading: `deep` says that a sample takes two bytes. A bool and no type parameter: the definitions ask it too (`read_of deep`).
fn read_as(file: &[u8], deep: bool) -> Result<Graymap, Unread>
    ensures { result ≡ read_of deep file.now }
{
    if !header::has_magic(file) {
        return Err(Unread::Refused(Refusal::NoMagic));
    }
    let Some(heading) = header::read_header(file, 3) else {
        return Err(Unread::Refused(Refusal::BadHeader));
    };
    sized(file, deep, heading)
}

// Past the header, which may have cut its numbers: first the maximum, then the sizes.
fn sized(file: &[u8], deep: bool, heading: Heading) -> Result<Graymap, Unread>
    requires { heading.start ≤ length file.now }
    ensures { result ≡ sized_of deep (length file.now) (header heading.width heading.height heading.maximum (drop heading.start file.now)) }
{
    let ranged = is_maximum(deep, heading.maximum);
    let fits = imageview::is_size(heading.width, heading.height);
    if !ranged {
        return Err(Unread::Refused(Refusal::BadHeader));
    }
    if !fits {
        return Err(Unread::Refused(Refusal::BadGraymapSize));
    }
    judged(file, deep, heading)
}

fn is_maximum(deep: bool, maximum: usize) -> bool
    ensures { result ≡ is_maximum deep maximum }
{
    if deep {
        (256 <= maximum) & (maximum <= 4095)
    } else {
        (1 <= maximum) & (maximum <= 255)
    }
}

// The bytes behind a header whose numbers can be used.
fn judged(file: &[u8], deep: bool, heading: Heading) -> Result<Graymap, Unread>
    requires inside { heading.start ≤ length file.now }
    requires size { is_size heading.width heading.height ≡ true }
    requires maximum { is_maximum deep heading.maximum ≡ true }
    ensures { result ≡ pixels_of deep (length file.now) heading.width heading.height heading.maximum (drop heading.start file.now) }
{
    let n = heading.width * heading.height;
    let size = bytes_of(deep, n);
    let left = &file[heading.start..];
    if left.len() < size {
        return Err(Unread::Refused(Refusal::TooShort));
    }
    let k = first_above(left, deep, heading.maximum, n);
    let above = k < n;
    let over = size < left.len();
    if above {
        return Err(Unread::Above(k));
    }
    if over {
        return Err(Unread::Refused(Refusal::LeftOver));
    }
    Ok(Graymap {
        width: heading.width,
        height: heading.height,
        maximum: heading.maximum,
        start: heading.start,
    })
}

// How many bytes n samples take.
fn bytes_of(deep: bool, n: usize) -> usize
    requires { n ≤ most * most }
    ensures { result ≡ bytes_of deep n }
{
    if deep { 2 * n } else { n }
}

// The first sample above the maximum, whatever bytes a sample takes.
fn first_above(left: &[u8], deep: bool, maximum: usize, n: usize) -> usize
    requires long { bytes_of deep n ≤ length left.now }
    requires maximum { is_maximum deep maximum ≡ true }
    ensures { result ≡ first_above (sample_in deep left.now) maximum n }
{
    if deep {
        samples::first_above_deep(left, maximum as u16, n)
    } else {
        samples::first_above(left, maximum as u8, n)
    }
}
