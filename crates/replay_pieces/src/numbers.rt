// Five numbers of a case: read, and compared with an answer.
use replay::{Fill, Part};

pub fn five(stored: Part) -> [f32; 5] {
    [
        stored.float(0),
        stored.float(1),
        stored.float(2),
        stored.float(3),
        stored.float(4),
    ]
}

pub fn are(stored: Part, found: &[f32; 5]) -> bool {
    replay::stands(stored, 5, Fill::Paint, found)
}
