// The archive for C and Rust: each call of chess_corners, exported. Every export calls the library and states its clauses again.
#![tactic(auto)]

ghost use Rattle.std.specs.Prelude.{◌≡◌, false, length};
ghost use Rattle.imageview.specs.Image.{byte_image, word_image};
ghost use Rattle.coverage.specs.Call.{fresh_way, add_way, replace_way, drop_way};
ghost use Rattle.gradient.specs.Call.{asked_of};
ghost use Rattle.graymap.specs.Call.{read_of};
ghost use Rattle.refine_seed.specs.Refine.{refine_lent, refine_of, old_number};
ghost use Rattle.refine_fallback.specs.Call.{way_of, way_lent};
ghost use Rattle.chess_corners.specs.Face.{Responded, Merging, Wanting, Refining, Scanning, Tying, Reading, ReadingDeep, Salvaging, Covering, Grading};
ghost use Rattle.chess_corners.specs.Fallback.{Retrying};
ghost use Rattle.chess_corners.specs.Seed.{settings, asked, Told, Operating};

// The ChESS response of the region (x0, y0) to (x1, y1), clamped to the image; 0, 10, 11, 13, 14 or 15.
#[unsafe(no_mangle)]
pub extern "C" fn chess_corners_response(
    img: &[u8],
    width: usize,
    height: usize,
    pitch: usize,
    ring: &[i32; 32],
    radius: usize,
    x0: usize,
    y0: usize,
    x1: usize,
    y1: usize,
    out: &mut [f32],
    out_width: &mut usize,
    out_height: &mut usize,
) -> u32
    ensures { Responded (byte_image img.now width height pitch) ring.now radius (record { x0 = x0; y0 = y0; x1 = x1; y1 = y1 }) out.old out_width.old out_height.old result out.new out_width.new out_height.new }
{
    chess_corners::chess_corners_response(
        img, width, height, pitch, ring, radius, x0, y0, x1, y1, out, out_width, out_height,
    )
}

// The peaks of a response, x, y and value of each, by row; 0, 10, 11, 12, 19 or 16.
#[unsafe(no_mangle)]
pub extern "C" fn chess_corners_peaks(
    response: &[f32],
    width: usize,
    height: usize,
    ring_radius: usize,
    window_radius: usize,
    refine_radius: usize,
    threshold: f32,
    min_cluster_size: u32,
    out: &mut [f32],
    count: &mut usize,
) -> u32
    ensures { Scanning (record { values = response.now; width = width; height = height; ring = ring_radius; window = window_radius; refine = refine_radius; threshold = threshold; cluster = min_cluster_size }) out.old count.old result out.new count.new }
{
    chess_corners::chess_corners_peaks(
        response,
        width,
        height,
        ring_radius,
        window_radius,
        refine_radius,
        threshold,
        min_cluster_size,
        out,
        count,
    )
}

// Corners within the radius of each other merged in place; 0, 19, 16, 18 or 17.
#[unsafe(no_mangle)]
pub extern "C" fn chess_corners_merge(
    corners: &mut [f32],
    radius: f32,
    heads: &mut [u16],
    links: &mut [u16],
    count: &mut usize,
) -> u32
    ensures { Merging corners.old radius heads.old links.old count.old result corners.new heads.new links.new count.new }
{
    chess_corners::chess_corners_merge(corners, radius, heads, links, count)
}

// How many heads a merge of these corners wants; 0, 19, 16 or 17.
#[unsafe(no_mangle)]
pub extern "C" fn chess_corners_merge_heads(corners: &[f32], radius: f32, heads: &mut usize) -> u32
    ensures { Wanting corners.now radius heads.old result heads.new }
{
    chess_corners::chess_corners_merge_heads(corners, radius, heads)
}

// The corners that the refiner accepts, in input order with their own strength; 0, 10, 11, 12, 19, 16 or 15.
#[unsafe(no_mangle)]
pub extern "C" fn chess_corners_refine_list(
    img: &[u8],
    width: usize,
    height: usize,
    pitch: usize,
    radius: usize,
    det_margin: f32,
    max_offset: f32,
    min_abs_det: f32,
    corners: &[f32],
    out: &mut [f32],
    count: &mut usize,
) -> u32
    ensures { Refining (byte_image img.now width height pitch) (settings radius det_margin max_offset min_abs_det) corners.now out.old count.old result out.new count.new }
{
    chess_corners::chess_corners_refine_list(
        img,
        width,
        height,
        pitch,
        radius,
        det_margin,
        max_offset,
        min_abs_det,
        corners,
        out,
        count,
    )
}

// The number of its corner for each place of a board; 0, 30, 31, 32, 33 or 34.
#[unsafe(no_mangle)]
pub extern "C" fn chess_corners_tie(
    rows: usize,
    columns: usize,
    places: &[f32],
    limit: f32,
    corners: &[f32],
    answers: &mut [u16],
    place: &mut usize,
) -> u32
    ensures { Tying rows columns places.now limit corners.now answers.old place.old result answers.new place.new }
{
    chess_corners::chess_corners_tie(rows, columns, places, limit, corners, answers, place)
}

// The sizes of a graymap, its maximum and where its pixels begin in the file; 0, 20, 21, 22, 23, 24 or 25.
#[unsafe(no_mangle)]
pub extern "C" fn chess_corners_graymap(
    file: &[u8],
    width: &mut usize,
    height: &mut usize,
    maximum: &mut usize,
    start: &mut usize,
    pixel: &mut usize,
) -> u32
    ensures { Reading (read_of false file.now) (record { width = width.old; height = height.old; maximum = maximum.old; start = start.old; pixel = pixel.old }) result (record { width = width.new; height = height.new; maximum = maximum.new; start = start.new; pixel = pixel.new }) }
{
    chess_corners::chess_corners_graymap(file, width, height, maximum, start, pixel)
}

// The records of a corner file that can be used, as they are, and the fault of each other one; 0, 10, 16 or 15.
#[unsafe(no_mangle)]
pub extern "C" fn chess_corners_salvage(
    file: &[u8],
    width: usize,
    height: usize,
    out: &mut [u8],
    faults: &mut [u16],
    kept: &mut usize,
    dropped: &mut usize,
) -> u32
    ensures { Salvaging width height file.now out.old faults.old kept.old dropped.old result out.new faults.new kept.new dropped.new }
{
    chess_corners::chess_corners_salvage(file, width, height, out, faults, kept, dropped)
}

// How many of the first `count` corners lie in each tile, afresh; 0, 10 or 16.
#[unsafe(no_mangle)]
pub extern "C" fn chess_corners_coverage(
    width: usize,
    height: usize,
    list: &[f32; 12288],
    count: usize,
    counts: &mut [u16; 65],
) -> u32
    ensures { Covering (fresh_way width height list.now count) list.now counts.old count result list.now counts.new count }
{
    chess_corners::chess_corners_coverage(width, height, list, count, counts)
}

// One corner more, at the end of the list; 0, 10 or 16.
#[unsafe(no_mangle)]
pub extern "C" fn chess_corners_coverage_add(
    width: usize,
    height: usize,
    list: &mut [f32; 12288],
    count: &mut usize,
    counts: &mut [u16; 65],
    x: f32,
    y: f32,
    strength: f32,
) -> u32
    ensures { Covering (add_way width height list.old count.old counts.old x y strength) list.old counts.old count.old result list.new counts.new count.new }
{
    chess_corners::chess_corners_coverage_add(width, height, list, count, counts, x, y, strength)
}

// The corner of this number is another one from now on; 0, 10, 16 or 35.
#[unsafe(no_mangle)]
pub extern "C" fn chess_corners_coverage_replace(
    width: usize,
    height: usize,
    list: &mut [f32; 12288],
    count: usize,
    counts: &mut [u16; 65],
    number: usize,
    x: f32,
    y: f32,
    strength: f32,
) -> u32
    ensures { Covering (replace_way width height list.old count counts.old number x y strength) list.old counts.old count result list.new counts.new count }
{
    chess_corners::chess_corners_coverage_replace(
        width, height, list, count, counts, number, x, y, strength,
    )
}

// The corner of this number is left out; the later ones move down by one; 0, 10, 16 or 35.
#[unsafe(no_mangle)]
pub extern "C" fn chess_corners_coverage_drop(
    width: usize,
    height: usize,
    list: &mut [f32; 12288],
    count: &mut usize,
    counts: &mut [u16; 65],
    number: usize,
) -> u32
    ensures { Covering (drop_way width height list.old count.old counts.old number) list.old counts.old count.old result list.new counts.new count.new }
{
    chess_corners::chess_corners_coverage_drop(width, height, list, count, counts, number)
}

// Adds two scales times the gradient of the response at the cell (x, y) of the tile to the grid; 0, 10, 13 or 15.
#[unsafe(no_mangle)]
pub extern "C" fn chess_corners_gradient(
    tile: &[u8],
    side: usize,
    ring: &[i32; 32],
    x: usize,
    y: usize,
    scale_x: f32,
    scale_y: f32,
    grid: &mut [f32],
) -> u32
    ensures { Grading (asked_of tile.now side ring.now x y (record { x = scale_x; y = scale_y })) grid.old result grid.new }
{
    chess_corners::chess_corners_gradient(tile, side, ring, x, y, scale_x, scale_y, grid)
}

// The response; 0, 10, 26, 11, 13, 14 or 15.
#[unsafe(no_mangle)]
pub extern "C" fn chess_corners_response_u16(
    img: &[u16],
    width: usize,
    height: usize,
    pitch: usize,
    ring: &[i32; 32],
    radius: usize,
    x0: usize,
    y0: usize,
    x1: usize,
    y1: usize,
    out: &mut [f32],
    out_width: &mut usize,
    out_height: &mut usize,
) -> u32
    ensures { Responded (word_image img.now width height pitch) ring.now radius (record { x0 = x0; y0 = y0; x1 = x1; y1 = y1 }) out.old out_width.old out_height.old result out.new out_width.new out_height.new }
{
    chess_corners::chess_corners_response_u16(
        img, width, height, pitch, ring, radius, x0, y0, x1, y1, out, out_width, out_height,
    )
}

// Refines one seed; 0 to 7, 10, 26, 11 or 12.
#[unsafe(no_mangle)]
pub extern "C" fn chess_corners_refine_u16(
    img: &[u16],
    width: usize,
    height: usize,
    pitch: usize,
    radius: usize,
    det_margin: f32,
    max_offset: f32,
    min_abs_det: f32,
    x: f32,
    y: f32,
    wanted: u32,
    place: &mut [f32; 3],
    state: &mut [u32; 3],
    covariance: &mut [f32; 3],
) -> u32
    ensures { Told (refine_of (word_image img.now width height pitch) (settings radius det_margin max_offset min_abs_det) x y (asked wanted)) x y place.old state.old covariance.old result place.new state.new covariance.new }
{
    chess_corners::chess_corners_refine_u16(
        img,
        width,
        height,
        pitch,
        radius,
        det_margin,
        max_offset,
        min_abs_det,
        x,
        y,
        wanted,
        place,
        state,
        covariance,
    )
}

// The same with an operator that is lent.
#[unsafe(no_mangle)]
pub extern "C" fn chess_corners_refine_with_u16(
    img: &[u16],
    width: usize,
    height: usize,
    pitch: usize,
    radius: usize,
    det_margin: f32,
    max_offset: f32,
    min_abs_det: f32,
    x: f32,
    y: f32,
    wanted: u32,
    columns: &[f32; 1125],
    overlap: &[f32; 225],
    place: &mut [f32; 3],
    state: &mut [u32; 3],
    covariance: &mut [f32; 3],
) -> u32
    ensures { Told (refine_lent (word_image img.now width height pitch) (settings radius det_margin max_offset min_abs_det) x y (asked wanted) columns.now overlap.now) x y place.old state.old covariance.old result place.new state.new covariance.new }
{
    chess_corners::chess_corners_refine_with_u16(
        img,
        width,
        height,
        pitch,
        radius,
        det_margin,
        max_offset,
        min_abs_det,
        x,
        y,
        wanted,
        columns,
        overlap,
        place,
        state,
        covariance,
    )
}

// Refines a list; 0, 10, 26, 11, 12, 19, 16 or 15.
#[unsafe(no_mangle)]
pub extern "C" fn chess_corners_refine_list_u16(
    img: &[u16],
    width: usize,
    height: usize,
    pitch: usize,
    radius: usize,
    det_margin: f32,
    max_offset: f32,
    min_abs_det: f32,
    corners: &[f32],
    out: &mut [f32],
    count: &mut usize,
) -> u32
    ensures { Refining (word_image img.now width height pitch) (settings radius det_margin max_offset min_abs_det) corners.now out.old count.old result out.new count.new }
{
    chess_corners::chess_corners_refine_list_u16(
        img,
        width,
        height,
        pitch,
        radius,
        det_margin,
        max_offset,
        min_abs_det,
        corners,
        out,
        count,
    )
}

// Refines a list with a second try; 0, 10, 26, 11, 12, 19, 16 or 15.
#[unsafe(no_mangle)]
pub extern "C" fn chess_corners_refine_list_fallback_u16(
    img: &[u16],
    width: usize,
    height: usize,
    pitch: usize,
    radius: usize,
    det_margin: f32,
    max_offset: f32,
    min_abs_det: f32,
    second_radius: usize,
    second_det_margin: f32,
    second_max_offset: f32,
    second_min_abs_det: f32,
    corners: &[f32],
    out: &mut [f32],
    passes: &mut [u8],
    count: &mut usize,
) -> u32
    ensures { Retrying (way_of (word_image img.now width height pitch) (settings radius det_margin max_offset min_abs_det) (settings second_radius second_det_margin second_max_offset second_min_abs_det) corners.now (length out.old) (length passes.old)) out.old passes.old count.old result out.new passes.new count.new }
{
    chess_corners::chess_corners_refine_list_fallback_u16(
        img,
        width,
        height,
        pitch,
        radius,
        det_margin,
        max_offset,
        min_abs_det,
        second_radius,
        second_det_margin,
        second_max_offset,
        second_min_abs_det,
        corners,
        out,
        passes,
        count,
    )
}

// The same with the columns of both operators lent.
#[unsafe(no_mangle)]
pub extern "C" fn chess_corners_refine_list_fallback_with_u16(
    img: &[u16],
    width: usize,
    height: usize,
    pitch: usize,
    radius: usize,
    det_margin: f32,
    max_offset: f32,
    min_abs_det: f32,
    second_radius: usize,
    second_det_margin: f32,
    second_max_offset: f32,
    second_min_abs_det: f32,
    columns: &[f32; 1125],
    second_columns: &[f32; 1125],
    corners: &[f32],
    out: &mut [f32],
    passes: &mut [u8],
    count: &mut usize,
) -> u32
    ensures { Retrying (way_lent (word_image img.now width height pitch) (settings radius det_margin max_offset min_abs_det) (settings second_radius second_det_margin second_max_offset second_min_abs_det) columns.now second_columns.now corners.now (length out.old) (length passes.old)) out.old passes.old count.old result out.new passes.new count.new }
{
    chess_corners::chess_corners_refine_list_fallback_with_u16(
        img,
        width,
        height,
        pitch,
        radius,
        det_margin,
        max_offset,
        min_abs_det,
        second_radius,
        second_det_margin,
        second_max_offset,
        second_min_abs_det,
        columns,
        second_columns,
        corners,
        out,
        passes,
        count,
    )
}

// A graymap with a maximum of 256 to 4095, its samples written to `out`; 0, 20, 21, 22, 23, 24, 25 or 27.
#[unsafe(no_mangle)]
pub extern "C" fn chess_corners_graymap_u16(
    file: &[u8],
    out: &mut [u16],
    width: &mut usize,
    height: &mut usize,
    maximum: &mut usize,
    start: &mut usize,
    pixel: &mut usize,
) -> u32
    ensures { ReadingDeep file.now out.old (record { width = width.old; height = height.old; maximum = maximum.old; start = start.old; pixel = pixel.old }) result out.new (record { width = width.new; height = height.new; maximum = maximum.new; start = start.new; pixel = pixel.new }) }
{
    chess_corners::chess_corners_graymap_u16(file, out, width, height, maximum, start, pixel)
}

// The corners that the first settings accept, or else the second ones, in input order with their own strength, and a byte for each: 1 or 2; 0, 10, 11, 12, 19, 16 or 15.
#[unsafe(no_mangle)]
pub extern "C" fn chess_corners_refine_list_fallback(
    img: &[u8],
    width: usize,
    height: usize,
    pitch: usize,
    radius: usize,
    det_margin: f32,
    max_offset: f32,
    min_abs_det: f32,
    second_radius: usize,
    second_det_margin: f32,
    second_max_offset: f32,
    second_min_abs_det: f32,
    corners: &[f32],
    out: &mut [f32],
    passes: &mut [u8],
    count: &mut usize,
) -> u32
    ensures { Retrying (way_of (byte_image img.now width height pitch) (settings radius det_margin max_offset min_abs_det) (settings second_radius second_det_margin second_max_offset second_min_abs_det) corners.now (length out.old) (length passes.old)) out.old passes.old count.old result out.new passes.new count.new }
{
    chess_corners::chess_corners_refine_list_fallback(
        img,
        width,
        height,
        pitch,
        radius,
        det_margin,
        max_offset,
        min_abs_det,
        second_radius,
        second_det_margin,
        second_max_offset,
        second_min_abs_det,
        corners,
        out,
        passes,
        count,
    )
}

// The same with the columns of both operators lent, whatever they hold; with those of the radii, built by `chess_corners_fit_operator`, the answer is that of the call above.
#[unsafe(no_mangle)]
pub extern "C" fn chess_corners_refine_list_fallback_with(
    img: &[u8],
    width: usize,
    height: usize,
    pitch: usize,
    radius: usize,
    det_margin: f32,
    max_offset: f32,
    min_abs_det: f32,
    second_radius: usize,
    second_det_margin: f32,
    second_max_offset: f32,
    second_min_abs_det: f32,
    columns: &[f32; 1125],
    second_columns: &[f32; 1125],
    corners: &[f32],
    out: &mut [f32],
    passes: &mut [u8],
    count: &mut usize,
) -> u32
    ensures { Retrying (way_lent (byte_image img.now width height pitch) (settings radius det_margin max_offset min_abs_det) (settings second_radius second_det_margin second_max_offset second_min_abs_det) columns.now second_columns.now corners.now (length out.old) (length passes.old)) out.old passes.old count.old result out.new passes.new count.new }
{
    chess_corners::chess_corners_refine_list_fallback_with(
        img,
        width,
        height,
        pitch,
        radius,
        det_margin,
        max_offset,
        min_abs_det,
        second_radius,
        second_det_margin,
        second_max_offset,
        second_min_abs_det,
        columns,
        second_columns,
        corners,
        out,
        passes,
        count,
    )
}

// Refines one seed; 0 to 7, 10, 11 or 12. `place` takes x, y and score, `state` whether it converged, the tries and whether there is a covariance.
#[unsafe(no_mangle)]
pub extern "C" fn chess_corners_refine(
    img: &[u8],
    width: usize,
    height: usize,
    pitch: usize,
    radius: usize,
    det_margin: f32,
    max_offset: f32,
    min_abs_det: f32,
    x: f32,
    y: f32,
    wanted: u32,
    place: &mut [f32; 3],
    state: &mut [u32; 3],
    covariance: &mut [f32; 3],
) -> u32
    ensures { Told (refine_of (byte_image img.now width height pitch) (settings radius det_margin max_offset min_abs_det) x y (asked wanted)) x y place.old state.old covariance.old result place.new state.new covariance.new }
{
    chess_corners::chess_corners_refine(
        img,
        width,
        height,
        pitch,
        radius,
        det_margin,
        max_offset,
        min_abs_det,
        x,
        y,
        wanted,
        place,
        state,
        covariance,
    )
}

// The same with an operator that is lent; with the one of the radius, built by `chess_corners_fit_operator`, the answer is that of `chess_corners_refine`.
#[unsafe(no_mangle)]
pub extern "C" fn chess_corners_refine_with(
    img: &[u8],
    width: usize,
    height: usize,
    pitch: usize,
    radius: usize,
    det_margin: f32,
    max_offset: f32,
    min_abs_det: f32,
    x: f32,
    y: f32,
    wanted: u32,
    columns: &[f32; 1125],
    overlap: &[f32; 225],
    place: &mut [f32; 3],
    state: &mut [u32; 3],
    covariance: &mut [f32; 3],
) -> u32
    ensures { Told (refine_lent (byte_image img.now width height pitch) (settings radius det_margin max_offset min_abs_det) x y (asked wanted) columns.now overlap.now) x y place.old state.old covariance.old result place.new state.new covariance.new }
{
    chess_corners::chess_corners_refine_with(
        img,
        width,
        height,
        pitch,
        radius,
        det_margin,
        max_offset,
        min_abs_det,
        x,
        y,
        wanted,
        columns,
        overlap,
        place,
        state,
        covariance,
    )
}

// The number that stood for a seed's number while a refused fit had one: 3 for 5, 6 and 7, every other for itself.
#[unsafe(no_mangle)]
pub extern "C" fn chess_corners_old_number(number: u32) -> u32
    ensures { result ≡ old_number number }
{
    chess_corners::chess_corners_old_number(number)
}

// Builds the operator of a radius; 0, 3 where there is none (radius 0), or 11.
#[unsafe(no_mangle)]
pub extern "C" fn chess_corners_fit_operator(
    radius: usize,
    columns: &mut [f32; 1125],
    overlap: &mut [f32; 225],
) -> u32
    ensures { Operating radius columns.old overlap.old result columns.new overlap.new }
{
    chess_corners::chess_corners_fit_operator(radius, columns, overlap)
}
