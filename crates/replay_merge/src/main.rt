// Replays the oracle's list of merges (data/merge.bin) through the exported call: the number, the count, the kept corners and the freed tail, or the
// list as it was lent, and what becomes of heads and links, which are painted before each call.
#![tactic(auto)]

use replay::{Aim, Fill, Part, Spoilt, Trial};
use std::io;

// More cases than the list has, so that the loop ends.
const MOST: u32 = 20000;

// What is lent to the call.
#[derive(Drop)]
struct Merging {
    list: [f32; 16384],
    heads: [u16; 16384],
    links: [u16; 5000],
}

fn main(rt: HostRuntime) -> io::Result<()> {
    let mut case = [0u8; 90000];
    let mut merging = Merging {
        list: [0.0; 16384],
        heads: [0; 16384],
        links: [0; 5000],
    };
    replay::try_list(&rt, "merge.bin", &mut case, MOST, &mut merging)
}

impl Trial for Merging {
    // The words that are judged: the number, the way, the count and the corners. Of the way only whether it is one, and the grid or not.
    fn spoil(&self, case: &mut [u8], turn: u32) -> Spoilt {
        let settings = settings(case);
        let judged = settings.judged(3 + 3 * settings.number(7), 3, 6);
        let word = replay::pick(turn, judged.words);
        let low = if word == 1 { 2 } else { 0 };
        replay::spoil_at(case, turn, judged.words, judged.place(word), low)
    }

    // Part 1 is the count, part 2 the list, part 3 the heads, part 4 the links.
    fn aim(&self, case: &[u8], turn: u32) -> Option<Aim> {
        let settings = settings(case);
        Some(match turn % 4 {
            0 => Aim::of(turn, 1, 1),
            1 => Aim::of(turn / 4, 2, Part::of(case).number(0)),
            2 => Aim::of(turn / 4, 3, settings.number(1)),
            _ => Aim::of(turn / 4, 4, settings.number(2)),
        })
    }

    fn holds(&mut self, case: &[u8], aim: Option<Aim>) -> bool {
        let settings = settings(case);
        let Some(list) = self.list.get_mut(..Part::of(case).number(0)) else {
            return false;
        };
        let Some(heads) = self.heads.get_mut(..settings.number(1)) else {
            return false;
        };
        let Some(links) = self.links.get_mut(..settings.number(2)) else {
            return false;
        };
        replay::lend(given(case), Part::of(case).number(1), Fill::Zeros, list);
        replay::paint(heads);
        replay::paint(links);
        let mut count = replay::mark(0) as usize;
        let radius = settings.float(0);
        let number = chess_corners::chess_corners_merge(list, radius, heads, links, &mut count);
        replay::hit(list, replay::within(aim, 2));
        replay::hit(heads, replay::within(aim, 3));
        replay::hit(links, replay::within(aim, 4));
        let counted = replay::hit_number(count, replay::within(aim, 1));
        is_counted(settings, number, counted)
            && list_stands(case, number, list)
            && scratch_stands(settings, heads, links)
    }
}

// The numbers that are given of the list, behind its length and how many they are.
fn given(case: &[u8]) -> Part {
    Part::of(case).behind(2)
}

// The radius and the lengths of heads and links, and the answer behind them.
fn settings(case: &[u8]) -> Part {
    given(case).behind(Part::of(case).number(1))
}

// The number, the count, and a way that goes with the number.
fn is_counted(settings: Part, number: u32, count: usize) -> bool {
    let way = settings.word(6);
    number == settings.word(3)
        && replay::counts(number, settings.word(7), count)
        && if number == 0 {
            (0 < way) & (way < 5)
        } else {
            way == 0
        }
}

// The kept corners with zeros behind them; where the merge is refused, the list as it was lent.
fn list_stands(case: &[u8], number: u32, list: &[f32]) -> bool {
    if number == 0 {
        let settings = settings(case);
        return replay::stands(
            settings.behind(8),
            3 * settings.number(7),
            Fill::Zeros,
            list,
        );
    }
    replay::stands(given(case), Part::of(case).number(1), Fill::Zeros, list)
}

// Heads and links are cleared by the grid, and else as they were.
fn scratch_stands(settings: Part, heads: &[u16], links: &[u16]) -> bool {
    let fill = if settings.word(6) == 4 {
        Fill::Zeros
    } else {
        Fill::Paint
    };
    replay::stands(settings, 0, fill, heads) && replay::stands(settings, 0, fill, links)
}
