// An image: the thin view of it, as it is given, and the one that passed its test.
ghost use Rattle.std.specs.Prelude.{◌≡◌, true, ◌&&◌, ◌+◌, ◌*◌, ◌<◌, ◌≤◌, length, get_or, take, drop, IfOk, IfErr, IfSome, is_some};
ghost use Rattle.imageview.specs.Image.{pixel, is_image, in_range};
ghost use Rattle.imageview.specs.Patch.{supports_patch};
ghost use Rattle.imageview.specs.Steps.{LowPixels, IsMeasured, IsTested};
ghost use Rattle.imageview.specs.View.{shown, passing, IsRefusedBy};

use crate::samples::Sample;
use crate::{is_pitch, is_size, within};
use refusals::Refusal;
use std::marker::Model;

/// An image as it is given, untested: `height` rows of `width` samples, each row `pitch` samples from the one before it.
#[derive(Clone, Copy)]
pub struct ImageView<'a, S> {
    pub data: &'a [S],
    pub width: usize,
    pub height: usize,
    pub pitch: usize,
}

impl<'a, S: Sample> ImageView<'a, S> {
    /// The test of an image; the product is taken only of sizes that cannot wrap it.
    #[tactic(auto, unfolding(crate::specs::Image::is_image))]
    pub fn is_image(self) -> bool
        ensures { result ≡ is_image (shown S.levels S.deep self.entry) }
    {
        is_size(self.width, self.height)
            && is_pitch(self.width, self.pitch)
            && self.count() == self.pitch * self.height
    }

    /// How many samples there are, those of the padding too.
    pub fn count(self) -> usize
        ensures { result ≡ length (shown S.levels S.deep self.entry).samples }
    {
        self.data.len()
    }

    /// The test of a deep image's samples, row by row without the padding; those of others all pass.
    pub fn in_range(self) -> bool
        requires { is_image (shown S.levels S.deep self) ≡ true }
        ensures answer { result ≡ in_range (shown S.levels S.deep self.entry) }
        ensures low { result ≡ true → LowPixels (shown S.levels S.deep self.entry) }
    {
        let mut all = true;
        for y in 0..self.height {
            all = all & S::are_low(self.patch_row(0, y, self.width));
        }
        all
    }

    /// The sample of a pixel.
    #[tactic(auto, unfolding(crate::specs::Image::pixel))]
    pub fn sample(self, x: usize, y: usize) -> u16
        requires { y * self.pitch + x < length self.data.now }
        ensures { result ≡ pixel (shown S.levels S.deep self.entry) x y }
    {
        S::level_at(self.data, y * self.pitch + x)
    }

    /// Whether the square of half-size radius about (x, y) lies in the image.
    #[tactic(auto, unfolding(crate::specs::Patch::supports_patch))]
    pub fn supports_patch(self, x: i32, y: i32, radius: usize) -> bool
        ensures { result ≡ supports_patch (shown S.levels S.deep self.entry) radius x y }
    {
        within(self.width, x, radius) & within(self.height, y, radius)
    }

    /// One row of a patch, as a part of the image: side samples from column x0 of row y.
    pub fn patch_row(self, x0: usize, y: usize, side: usize) -> &'a [S]
        requires { y * self.pitch + x0 + side ≤ length self.data.now }
        ensures { result.now ≡ take side (drop (y * self.entry.pitch + x0) self.entry.data.now) }
    {
        let start = y * self.pitch + x0;
        &self.data[start..start + side]
    }
}

/// An image whose sizes passed their test. Clauses see it as the record of its samples and sizes.
#[derive(Drop)]
pub struct Image<'a, S: Sample> {
    view: ImageView<'a, S>,
}

impl<'a, S: Sample> Model for Image<'a, S> {
    ghost use Rattle.imageview.specs.Image.{Image};
    ghost use Rattle.imageview.specs.Steps.{IsMeasured};
    ghost use Rattle.imageview.specs.View.{shown};

    ghost Value = { Image };

    ghost view = { λ a. shown S.levels S.deep a.view };

    ghost invariant = { λ a. IsMeasured (shown S.levels S.deep a.view) };
}

impl<'a, S: Sample> Image<'a, S> {
    /// The view's image, where it passes its tests: else refusal 10, then 26 where a deep image has a sample above the greatest.
    pub fn new(view: ImageView<'a, S>) -> Result<Image<'a, S>, Refusal>
        ensures answer { result ≡ passing (shown S.levels S.deep view.entry) }
        ensures image { IfOk result (λ image. image ≡ shown S.levels S.deep view.entry) }
        ensures tested { IfOk result IsTested }
        ensures refused { IfErr result (IsRefusedBy (shown S.levels S.deep view.entry)) }
    {
        let Some(image) = Image::measured(view) else {
            return Err(Refusal::BadImage);
        };
        if !view.in_range() {
            return Err(Refusal::BadSample);
        }
        Ok(image)
    }

    /// The view's image, where its sizes pass their test, whatever its samples are.
    #[tactic(auto, using(crate::proofs::ImageLaws::is_measured))]
    pub fn measured(view: ImageView<'a, S>) -> Option<Image<'a, S>>
        ensures there { is_some result ≡ is_image (shown S.levels S.deep view.entry) }
        ensures image { IfSome result (λ image. image ≡ shown S.levels S.deep view.entry) }
        ensures measured { IfSome result IsMeasured }
    {
        if view.is_image() {
            return Some(Image { view });
        }
        None
    }

    pub fn width(&self) -> usize
        ensures width { result ≡ self.now.width }
        ensures measured { IsMeasured self.now }
    {
        self.view.width
    }

    pub fn height(&self) -> usize
        ensures height { result ≡ self.now.height }
        ensures measured { IsMeasured self.now }
    {
        self.view.height
    }

    /// How far a row begins from the one before it.
    pub fn pitch(&self) -> usize
        ensures pitch { result ≡ self.now.pitch }
        ensures measured { IsMeasured self.now }
    {
        self.view.pitch
    }

    /// The view that passed its test.
    pub fn view(&self) -> ImageView<'a, S>
        ensures image { shown S.levels S.deep result ≡ self.now }
        ensures count { length result.data.now ≡ length self.now.samples }
        ensures measured { IsMeasured self.now }
    {
        self.view
    }

    /// The samples, row after row, with the padding.
    pub fn samples(&self) -> &'a [S]
        ensures samples { S.levels result.now ≡ self.now.samples }
        ensures count { length result.now ≡ length self.now.samples }
        ensures measured { IsMeasured self.now }
    {
        self.view.data
    }

    /// How many samples there are, those of the padding too.
    pub fn count(&self) -> usize
        ensures count { result ≡ length self.now.samples }
        ensures measured { IsMeasured self.now }
    {
        self.view.count()
    }

    /// One sample, by its index among all.
    pub fn level(&self, i: usize) -> u16
        requires { i < length self.now.samples }
        ensures { result ≡ get_or self.now.samples i 0 }
    {
        S::level_at(self.samples(), i)
    }

    /// The sample of a pixel.
    #[tactic(auto, unfolding(crate::specs::Image::pixel))]
    pub fn sample(&self, x: usize, y: usize) -> u16
        requires { y * self.now.pitch + x < length self.now.samples }
        ensures { result ≡ pixel self.now x y }
    {
        self.view.sample(x, y)
    }

    /// One row of a patch, as a part of the image: side samples from column x0 of row y.
    pub fn patch_row(&self, x0: usize, y: usize, side: usize) -> &'a [S]
        requires { y * self.now.pitch + x0 + side ≤ length self.now.samples }
        ensures levels { S.levels result.now ≡ take side (drop (y * self.now.pitch + x0) self.now.samples) }
        ensures side { length result.now ≡ side }
    {
        let start = y * self.pitch() + x0;
        &self.samples()[start..start + side]
    }

    /// Whether the square of half-size radius about (x, y) lies in the image.
    #[tactic(auto, unfolding(crate::specs::Patch::supports_patch))]
    pub fn supports_patch(&self, x: i32, y: i32, radius: usize) -> bool
        ensures { result ≡ supports_patch self.now radius x y }
    {
        self.view.supports_patch(x, y, radius)
    }
}
