// Nine fits kept by their centre pixel: each look-up gives what a fresh fit gives.
ghost use Rattle.std.specs.Prelude.{◌≡◌, ◌<◌, pos, IfSome};
ghost use Rattle.refine_fits.specs.Fit.{coefficients};
ghost use Rattle.refine_fits.specs.Windows.{four, corners_at};
ghost use Rattle.refine_fits.specs.StepsAdding.{PatchWithin, FourWithin};
ghost use Rattle.refine_fits.specs.StepsCache.{Kept, Slot, fit_in, named, slotted, Counted, Found};

use super::{IntegerFits, Looked};
use crate::fits;
use imageview::{Image, Sample};
use refine_formulas::Corners;
use refine_patch::Columns;

impl IntegerFits {
    // The coefficients of the fit about (x, y), kept or worked out. The cache is written where it lies: by value each copy of it stands in the stack.
    pub fn find<S: Sample>(
        &mut self,
        image: &Image<S>,
        x: usize,
        y: usize,
        columns: &Columns,
    ) -> [f32; 5]
        requires within { PatchWithin image.now columns.now.radius x y }
        requires kept { Kept image.now columns.now.numbers.now columns.now.radius self.old }
        ensures coefs { result ≡ coefficients image.now columns.now.numbers.now columns.now.radius x y }
        ensures kept { Kept image.now columns.now.numbers.now columns.now.radius self.new }
    {
        let centre_x = x as u16;
        let centre_y = y as u16;
        if let Some(slot) = slot_of(&self.centres, self.len, centre_x, centre_y) {
            return fit_in(&self.coefs, slot);
        }
        let coefs = fits::fit_patch(image, x, y, columns);
        let oldest = self.len % 9;
        name_slot(&mut self.centres, oldest, centre_x, centre_y);
        fill_slot(&mut self.coefs, oldest, coefs);
        self.len = one_more(self.len);
        coefs
    }

    // The same by value: the coefficients, and the cache with them in it.
    pub fn at<S: Sample>(
        mut self,
        image: &Image<S>,
        x: usize,
        y: usize,
        columns: &Columns,
    ) -> Looked
        requires within { PatchWithin image.now columns.now.radius x y }
        requires kept { Kept image.now columns.now.numbers.now columns.now.radius self }
        ensures { Found image.now columns.now.numbers.now columns.now.radius x y result }
    {
        let coefs = self.find(image, x, y, columns);
        Looked { coefs, fits: self }
    }

    // The four fits about (x, y), one after the other.
    pub fn look<S: Sample>(
        &mut self,
        image: &Image<S>,
        x: usize,
        y: usize,
        columns: &Columns,
    ) -> Corners
        requires within { FourWithin image.now columns.now.radius x y }
        requires kept { Kept image.now columns.now.numbers.now columns.now.radius self.old }
        ensures corners { corners_at image.now columns.now.numbers.now columns.now.radius (pos x) (pos y) ≡ four result }
        ensures kept { Kept image.now columns.now.numbers.now columns.now.radius self.new }
    {
        let mut fits = [[0.0f32; 5]; 4];
        for k in 0..4 {
            fits[k] = self.find(image, x + k % 2, y + k / 2, columns);
        }
        Corners {
            c00: fits[0],
            c10: fits[1],
            c01: fits[2],
            c11: fits[3],
        }
    }
}

// The slot of the fit about (x, y), where it is kept.
fn slot_of(centres: &[u16; 18], len: usize, x: u16, y: u16) -> Option<usize>
    ensures { IfSome result (Slot centres.now len x y) }
{
    for i in 0..len.min(9) {
        if (centres[2 * i] == x) & (centres[2 * i + 1] == y) {
            return Some(i);
        }
    }
    None
}

// The fit in a slot.
fn fit_in(coefs: &[f32; 45], slot: usize) -> [f32; 5]
    requires { slot < 9 }
    ensures { result ≡ fit_in coefs.now slot }
{
    let i = 5 * slot;
    [
        coefs[i],
        coefs[i + 1],
        coefs[i + 2],
        coefs[i + 3],
        coefs[i + 4],
    ]
}

// A slot is given its centre.
fn name_slot(centres: &mut [u16; 18], slot: usize, x: u16, y: u16)
    requires { slot < 9 }
    ensures { centres.new ≡ named centres.old slot x y }
{
    centres[2 * slot] = x;
    centres[2 * slot + 1] = y;
}

// A slot is given its fit.
fn fill_slot(coefs: &mut [f32; 45], slot: usize, fit: [f32; 5])
    requires { slot < 9 }
    ensures { coefs.new ≡ slotted coefs.old slot fit }
{
    let i = 5 * slot;
    coefs[i] = fit[0];
    coefs[i + 1] = fit[1];
    coefs[i + 2] = fit[2];
    coefs[i + 3] = fit[3];
    coefs[i + 4] = fit[4];
}

// The number of fits, counted on from 9 once it would be 18.
fn one_more(len: usize) -> usize
    requires { len < 18 }
    ensures { Counted len result }
{
    if len == 17 { 9 } else { len + 1 }
}
