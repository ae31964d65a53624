// The fits of the saddle-point refiner, after `saddle_point.rs`: the fit on a patch, nine fits kept by value, and one candidate window.
#![tactic(auto)]

mod cache;
pub mod fits;
pub mod laid;
pub mod place;
pub mod tries;

// Fits that were worked out, by their centre pixel, the oldest overwritten first.
// The slots in use are the first `len`, or all nine; the next to be written is `len % 9`. Flat arrays with a length, by value: document 01 names this form.
#[derive(Clone, Copy, Debug, PartialEq)]
pub struct IntegerFits {
    pub centres: [u16; 18],
    pub coefs: [f32; 45],
    pub len: usize,
}

// What a look-up hands back: the coefficients, and the cache with them in it.
#[derive(Clone, Copy, Debug, PartialEq)]
pub struct Looked {
    pub fits: IntegerFits,
    pub coefs: [f32; 5],
}

// The pixel below and before a window.
#[derive(Clone, Copy, Debug, PartialEq, Eq)]
pub struct Base {
    pub x: u16,
    pub y: u16,
}

// The two bases whose four fits stand in a flat array, the first and the last one.
#[derive(Clone, Copy, Debug, PartialEq, Eq)]
pub struct Bases {
    pub first: Option<Base>,
    pub last: Option<Base>,
}

// A window between pixels: its base, none where that lies outside every image, and how far on it lies.
#[derive(Clone, Copy, Debug, PartialEq)]
pub struct Window {
    pub base: Option<Base>,
    pub tx: f32,
    pub ty: f32,
}

// A seed and the pixel that it rounds to.
#[derive(Clone, Copy, Debug, PartialEq)]
pub struct Seed {
    pub x: f32,
    pub y: f32,
    pub centre_x: u16,
    pub centre_y: u16,
}

// The five sums of a fit while samples are added. A struct beside refine_patch's of five times four lanes: as `[f32; 5]` that a call hands on in a loop, the kit's borrow checker does not cover it.
#[derive(Clone, Copy, Debug, PartialEq)]
pub struct Sums {
    pub a: f32,
    pub b: f32,
    pub c: f32,
    pub d: f32,
    pub e: f32,
}
