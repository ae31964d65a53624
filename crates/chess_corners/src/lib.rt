// The public face for C and Rust: one exported function a call, over numbers, references and slices. Each returns the number of docs/RULES.md, 0 where it is
// done. Further answers are written where the number is 0; one seed's place and score with 1 to 7 too, the place at fault with 33 and 34, and the pixel above
// its maximum with 24. Calls that end in `_u16` are the same of twelve-bit samples in words, with 26 behind 10.
#![tactic(auto)]

mod beside;
mod graymaps;
mod images;
mod list;
mod seed;
mod told;

ghost use Rattle.chess_corners.specs.Face.{Merging, Wanting, Scanning, Tying};

pub use beside::{
    chess_corners_coverage, chess_corners_coverage_add, chess_corners_coverage_drop,
    chess_corners_coverage_replace, chess_corners_gradient, chess_corners_salvage,
};
use board::Untied;
pub use graymaps::{chess_corners_graymap, chess_corners_graymap_u16};
pub use images::{chess_corners_response, chess_corners_response_u16};
pub use list::{
    chess_corners_refine_list, chess_corners_refine_list_fallback,
    chess_corners_refine_list_fallback_u16, chess_corners_refine_list_fallback_with,
    chess_corners_refine_list_fallback_with_u16, chess_corners_refine_list_u16,
};
pub use seed::{
    chess_corners_fit_operator, chess_corners_old_number, chess_corners_refine,
    chess_corners_refine_u16, chess_corners_refine_with, chess_corners_refine_with_u16,
};

/// The peaks of a response, x, y and value of each, by row; 0, 10, 11, 12, 19 or 16.
pub fn chess_corners_peaks(
    response: &[f32],
    width: usize,
    height: usize,
    ring_radius: usize,
    window_radius: usize,
    refine_radius: usize,
    threshold: f32,
    min_cluster_size: u32,
    out: &mut [f32],
    count: &mut usize,
) -> u32
    ensures { Scanning (record { values = response.now; width = width; height = height; ring = ring_radius; window = window_radius; refine = refine_radius; threshold = threshold; cluster = min_cluster_size }) out.old count.old result out.new count.new }
{
    let answer = peaks::detect_peaks_from_response_with_refine_radius(
        response,
        width,
        height,
        ring_radius,
        window_radius,
        refine_radius,
        threshold,
        min_cluster_size,
        out,
    );
    told::tell_count(answer, count)
}

/// Corners within the radius of each other merged in place; 0, 19, 16, 18 or 17.
pub fn chess_corners_merge(
    corners: &mut [f32],
    radius: f32,
    heads: &mut [u16],
    links: &mut [u16],
    count: &mut usize,
) -> u32
    ensures { Merging corners.old radius heads.old links.old count.old result corners.new heads.new links.new count.new }
{
    let answer = merge::merge_corners_simple(corners, radius, heads, links);
    told::tell_count(answer, count)
}

/// How many heads a merge of these corners wants; 0, 19, 16 or 17.
pub fn chess_corners_merge_heads(corners: &[f32], radius: f32, heads: &mut usize) -> u32
    ensures { Wanting corners.now radius heads.old result heads.new }
{
    told::tell_count(merge::heads_wanted(corners, radius), heads)
}

/// The number of its corner for each place of a board; 0, 30, 31, 32, 33 or 34.
pub fn chess_corners_tie(
    rows: usize,
    columns: usize,
    places: &[f32],
    limit: f32,
    corners: &[f32],
    answers: &mut [u16],
    place: &mut usize,
) -> u32
    ensures { Tying rows columns places.now limit corners.now answers.old place.old result answers.new place.new }
{
    let answer = board::tie_corners(rows, columns, places, limit, corners, answers);
    match answer {
        Ok(()) => 0,
        Err(Untied::NoCorner(at)) => {
            *place = at;
            33
        }
        Err(Untied::UsedTwice(at)) => {
            *place = at;
            34
        }
        Err(Untied::Refused(refusal)) => refusal.into(),
    }
}
