// Buffers: lent before a call with the numbers of a case or with paint, and judged after it.
ghost use Rattle.std.specs.Prelude.{◌≡◌, ◌≤◌, eqb};
ghost use Rattle.replay.specs.Place.{place_of};
ghost use Rattle.replay.specs.Buffers.{mark_of, wanted_of, lent_of, painted_of, stands_in, given_byte, loaded_of, wanted_byte, bytes_stand_in, counts_as, corners_stand};

use crate::{Element, Part};

// What stands behind the numbers of a case.
#[derive(Clone, Copy, Debug, PartialEq)]
pub enum Fill {
    Paint,
    Zeros,
}

// How many of the places of a list can be counted in sixteen bits: the compiler works the paint of those out several at a time.
fn sixteen_bits_of(len: usize) -> u16
    ensures within { result ≤ len }
{
    len.min(0xffff) as u16
}

// The paint of a number by itself.
pub fn mark(i: usize) -> u32
    ensures { result ≡ mark_of i }
{
    <f32 as Element>::mark(i)
}

// The word of a buffer at place i: one of the n that a part begins with, and behind them paint or 0.
pub fn wanted<T: Element>(part: Part, n: usize, fill: Fill, i: usize) -> u32
    ensures { result ≡ wanted_of T.mark_at part.entry.case.now part.entry.at n fill i }
{
    if i < n {
        return part.word(i);
    }
    match fill {
        Fill::Paint => T::mark(i),
        Fill::Zeros => 0,
    }
}

// The number of a buffer at place i.
fn lent<T: Element>(part: Part, n: usize, fill: Fill, i: usize) -> T
    ensures { result ≡ T.of_word (wanted_of T.mark_at part.entry.case.now part.entry.at n fill i) }
{
    T::from_word(wanted::<T>(part, n, fill, i))
}

// A list lent with n numbers of a part, and paint or zeros behind them.
#[tactic(auto, using(crate::proofs::BufferLaws::over_more), unfolding(crate::specs::Buffers::over))]
pub fn lend<T: Element>(part: Part, n: usize, fill: Fill, list: &mut [T])
    ensures { list.new ≡ lent_of T.of_word T.mark_at part.entry.case.now part.entry.at n fill list.old }
{
    let first = sixteen_bits_of(list.len());
    for k in 0..first {
        list[usize::from(k)] = lent(part, n, fill, usize::from(k));
    }
    for i in usize::from(first)..list.len() {
        list[i] = lent(part, n, fill, i);
    }
}

// A number of paint.
fn painted<T: Element>(i: usize) -> T
    ensures { result ≡ T.of_word (T.mark_at i) }
{
    T::from_word(T::mark(i))
}

// A list lent with paint alone.
#[tactic(auto, using(crate::proofs::BufferLaws::over_more), unfolding(crate::specs::Buffers::over))]
pub fn paint<T: Element>(list: &mut [T])
    ensures { list.new ≡ painted_of T.of_word T.mark_at list.old }
{
    let first = sixteen_bits_of(list.len());
    for k in 0..first {
        list[usize::from(k)] = painted(usize::from(k));
    }
    for i in usize::from(first)..list.len() {
        list[i] = painted(i);
    }
}

// Whether a number is the one of a buffer at place i.
fn is_wanted<T: Element>(part: Part, n: usize, fill: Fill, i: usize, x: T) -> bool
    ensures { result ≡ eqb (T.word_of x) (wanted_of T.mark_at part.entry.case.now part.entry.at n fill i) }
{
    x.to_word() == wanted::<T>(part, n, fill, i)
}

// Whether a list is n numbers of a part with paint or zeros behind them.
#[tactic(auto, using(crate::proofs::BufferLaws::all_more, crate::proofs::BufferLaws::all_fails, crate::proofs::BufferLaws::all_end))]
pub fn stands<T: Element>(part: Part, n: usize, fill: Fill, list: &[T]) -> bool
    ensures { result ≡ stands_in T.word_of T.mark_at part.entry.case.now part.entry.at n fill list.now }
{
    if list.len() < n {
        return false;
    }
    let first = sixteen_bits_of(list.len());
    for k in 0..first {
        if !is_wanted(part, n, fill, usize::from(k), list[usize::from(k)]) {
            return false;
        }
    }
    for i in usize::from(first)..list.len() {
        if !is_wanted(part, n, fill, i, list[i]) {
            return false;
        }
    }
    true
}

// The byte number i of those that are given; 0 behind them.
fn given_byte(part: Part, given: usize, i: usize) -> u8
    ensures { result ≡ given_byte part.entry.case.now part.entry.at given i }
{
    if i < given { part.byte(i) } else { 0 }
}

// A buffer lent with the bytes that are given, and zeros behind them.
#[tactic(auto, using(crate::proofs::BufferLaws::over_more), unfolding(crate::specs::Buffers::over))]
pub fn load(part: Part, given: usize, bytes: &mut [u8])
    ensures { bytes.new ≡ loaded_of part.entry.case.now part.entry.at given bytes.old }
{
    for (i, x) in bytes.iter_mut().enumerate() {
        *x = given_byte(part, given, i);
    }
}

// The byte of a buffer at place i: one of the n that are stored, and behind them paint.
fn wanted_byte(part: Part, given: usize, n: usize, i: usize) -> u8
    ensures { result ≡ wanted_byte part.entry.case.now part.entry.at given n i }
{
    if i < n {
        return given_byte(part, given, i);
    }
    (i % 250) as u8 + 3
}

// Whether a buffer is n bytes of a part, of which so many are given, with paint behind them.
#[tactic(auto, using(crate::proofs::BufferLaws::numbers_more, crate::proofs::BufferLaws::numbers_fail, crate::proofs::BufferLaws::all_end))]
pub fn bytes_stand(part: Part, given: usize, n: usize, bytes: &[u8]) -> bool
    ensures { result ≡ bytes_stand_in part.entry.case.now part.entry.at given n bytes.now }
{
    if bytes.len() < n {
        return false;
    }
    for (i, x) in bytes.iter().enumerate() {
        if *x != wanted_byte(part, given, n, i) {
            return false;
        }
    }
    true
}

// Whether a number handed out beside the answer is the stored one, or, where the call is refused, is still paint with 0 stored.
pub fn counts(number: u32, stored: u32, count: usize) -> bool
    ensures { result ≡ counts_as number stored count }
{
    if number == 0 {
        count == stored as usize
    } else {
        (stored == 0) & (count == mark(0) as usize)
    }
}

// Whether an answer is the stored one, which begins with its number, who decided and why, and goes on with a count and that many corners;
// behind those the output is painted.
pub fn corners_stand(stored: Part, number: u32, count: usize, out: &[f32]) -> bool
    ensures { result ≡ corners_stand stored.entry.case.now stored.entry.at number count out.now }
{
    number == stored.word(0)
        && counts(number, stored.word(3), count)
        && stands(stored.behind(4), 3 * stored.number(3), Fill::Paint, out)
}
