// Where the parts of a row stand in its case, and the list and the counts as they are stored there: the records that are not paint or +0.0, and the counts
// that are not 0.

use replay::{Fill, Part};

// The parts of a row, and what follows the last one.
#[derive(Clone, Copy)]
pub struct Layout<'a> {
    pub calls: Part<'a>,
    pub list: Part<'a>,
    pub numbers: Part<'a>,
    pub count_after: Part<'a>,
    pub counts_after: Part<'a>,
    pub list_after: Part<'a>,
    pub end: Part<'a>,
}

impl<'a> Layout<'a> {
    pub fn of(case: &'a [u8]) -> Self {
        let row = Part::of(case);
        let count = row.number(7);
        let calls = row.behind(9).behind(row.number(8));
        let list = calls.behind(6 * count);
        let numbers = behind_list(list);
        let count_after = numbers.behind(count);
        let counts_after = count_after.behind(2);
        let list_after = counts_after.behind(1).behind(counts_after.number(0));
        Layout {
            calls,
            list,
            numbers,
            count_after,
            counts_after,
            list_after,
            end: behind_list(list_after),
        }
    }

    // Where call number i begins.
    pub fn call(self, i: usize) -> Part<'a> {
        self.calls.behind(6 * i.min(0x100_0000))
    }
}

// A list is the number of its records, and four words a record.
fn behind_list<'a>(list: Part<'a>) -> Part<'a> {
    list.behind(1).behind(4 * list.number(0))
}

// How many words stand from a place on.
pub fn words_from(part: Part) -> usize {
    part.case.len().saturating_sub(part.at) / 4
}

// The list whose records stand behind their number, over paint where the case says so.
pub fn lend_list(stored: Part, list: &mut [f32]) {
    let painted = Part::of(stored.case).word(6) == 1;
    let fill = if painted { Fill::Paint } else { Fill::Zeros };
    replay::lend(stored, 0, fill, list);
    for i in 0..stored.number(0) {
        put(stored.behind(1).behind(4 * i), list);
    }
}

// The record that stands behind its number.
fn put(record: Part, list: &mut [f32]) {
    let start = 3 * record.number(0);
    for k in 0..3 {
        if let Some(x) = list.get_mut(start + k) {
            *x = record.float(1 + k);
        }
    }
}

// The counts that stand behind how many they are: each is a tile times 65,536 and its count.
pub fn lend_counts(stored: Part, counts: &mut [u16]) {
    counts.fill(0);
    for i in 0..stored.number(0) {
        let word = stored.behind(1).word(i);
        if let Some(count) = counts.get_mut((word / 65536) as usize) {
            *count = (word % 65536) as u16;
        }
    }
}
