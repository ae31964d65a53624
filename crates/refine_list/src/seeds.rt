// The seeds of a list, one after the other: each starts from its first fit, and these are worked out for four at once.
ghost use Rattle.std.specs.Prelude.{◌≡◌, ◌+◌, ◌*◌, ◌/◌, ◌<◌, ◌≤◌, length};
ghost use Rattle.refine_seed.specs.StepsSpot.{Ready};

use imageview::{Image, Sample};
use refine_formulas::SaddlePointConfig;
use refine_patch::{Columns, Firsts};
use refine_seed::Spot;

// A list of corners, the settings with which its seeds are refined, and the columns of an operator of their radius.
#[derive(Clone, Copy)]
pub struct Seeds<'c, 'l> {
    pub cfg: SaddlePointConfig,
    pub columns: Columns<'c>,
    pub corners: &'l [f32],
    pub ghost same_radius: { columns.radius ≡ cfg.radius },
}

// The first fits of the four seeds of a group, at the front of `flat`. A group past the list has none.
#[derive(Drop)]
pub struct GroupFits {
    group: usize,
    flat: [f32; 40],
}

impl Seeds<'_, '_> {
    ghost use Rattle.refine_list.specs.Steps.{Begins, FirstFits};
    ghost use Rattle.refine_list.specs.Seeds.{lent_spot, Holds, NoneHeld};

    // No group's fits.
    pub fn no_fits(&self) -> GroupFits
        ensures { NoneHeld self.now result }
    {
        GroupFits {
            group: self.corners.len() / 3,
            flat: [0.0; 40],
        }
    }

    // Where the seed number i is refined to. The first fits of its group are worked out where those that are held are another's.
    pub fn spot<S: Sample>(&self, image: &Image<S>, i: usize, held: &mut GroupFits) -> Option<Spot>
        requires ready { Ready image.now self.now.cfg }
        requires seed { i < length self.now.corners.now / 3 }
        requires held { Holds image.now self.now held.old }
        ensures value { result ≡ lent_spot image.now self.now i }
        ensures held { Holds image.now self.now held.new }
    {
        if held.group != i / 4 {
            self.first_fits(image, i / 4, &mut held.flat);
            held.group = i / 4;
        }
        refine_seed::spot_with(
            image,
            &self.columns,
            self.cfg,
            self.corners[3 * i],
            self.corners[3 * i + 1],
            &held.flat,
            i % 4,
        )
    }

    // The first fits of the four seeds of a group, to the front of `flat`. Where no patch fits into the image no seed has one.
    pub fn first_fits<S: Sample>(&self, image: &Image<S>, group: usize, flat: &mut [f32; 40])
        requires ready { Ready image.now self.now.cfg }
        requires long { length flat.old ≡ 40 }
        requires group { 4 * group < length self.now.corners.now / 3 }
        ensures { FirstFits image.now self.now.cfg self.now.columns.numbers.now self.now.corners.now group flat.new }
    {
        let most = 2 * self.cfg.radius;
        if (image.width() <= most) | (image.height() <= most) {
            return;
        }
        let i = 4 * group;
        let at = Firsts {
            a: self.first_of(image, i),
            b: self.first_of(image, i + 1),
            c: self.first_of(image, i + 2),
            d: self.first_of(image, i + 3),
        };
        refine_patch::fit_four(image.view(), &self.columns, at, flat, 0);
    }

    // Where the patch about the seed number i begins; 0 for a seed that is not refined, and past the last.
    fn first_of<S: Sample>(&self, image: &Image<S>, i: usize) -> usize
        requires ready { Ready image.now self.now.cfg }
        ensures { Begins image.now.width image.now.height image.now.pitch self.now.cfg.radius self.now.corners.now i result }
    {
        if self.corners.len() / 3 <= i {
            return 0;
        }
        refine_seed::first_place(
            image.view(),
            self.cfg.radius,
            self.corners[3 * i],
            self.corners[3 * i + 1],
        )
    }
}
