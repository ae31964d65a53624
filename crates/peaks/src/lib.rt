// Peaks of a response, after `detect.rs` and `neighbors.rs`; the window rule is ours.
#![tactic(auto)]

ghost use Rattle.std.specs.Prelude.{◌≡◌, ◌&&◌, leb};
ghost use Rattle.peaks.specs.Sound.{scan_for, Sound};
ghost use Rattle.peaks.specs.Call.{Done};

mod gather;
mod list;
mod scan;
mod window;

use refusals::Refusal;

// A response and the settings by which it is scanned, as the public call has tested them.
#[derive(Clone, Copy)]
struct Response<'a> {
    values: &'a [f32],
    width: usize,
    height: usize,
    ring: usize,
    window: usize,
    refine: usize,
    threshold: f32,
    cluster: u32,
    ghost sound: { Sound (scan_for values.now width height ring window refine threshold cluster) },
}

// Writes x, y and value of every peak of the response, by row; the rest of the output stays.
#[tactic(auto, unfolding(crate::specs::Call::way_of))]
pub fn detect_peaks_from_response_with_refine_radius(
    response: &[f32],
    width: usize,
    height: usize,
    ring_radius: usize,
    window_radius: usize,
    refine_radius: usize,
    threshold: f32,
    min_cluster_size: u32,
    out: &mut [f32],
) -> Result<usize, Refusal>
    ensures { Done (record { values = response.now; width = width; height = height; ring = ring_radius; window = window_radius; refine = refine_radius; threshold = threshold; cluster = min_cluster_size }) out.old result out.new }
{
    if !imageview::fits(response.len(), width, height) {
        return Err(Refusal::BadImage);
    }
    if !radii_fit(ring_radius, window_radius, refine_radius) {
        return Err(Refusal::BadRadius);
    }
    if !floats::is_finite_f32(threshold) {
        return Err(Refusal::BadLimit);
    }
    if !corners::is_whole(out.len()) {
        return Err(Refusal::BadLength);
    }
    let response = Response {
        values: response,
        width,
        height,
        ring: ring_radius,
        window: window_radius,
        refine: refine_radius,
        threshold,
        cluster: min_cluster_size,
    };
    response.record_all(out)
}

// The test of the three radii.
fn radii_fit(ring: usize, window: usize, refine: usize) -> bool
    ensures { result ≡ (leb 1 ring && leb ring 10 && leb 1 window && leb window 8 && leb refine 7) }
{
    (1 <= ring) & (ring <= 10) & (1 <= window) & (window <= 8) & (refine <= 7)
}
