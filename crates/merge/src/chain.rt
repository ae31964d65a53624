// Chains of kept corners, one a cell, each from the highest number down. A link is lower than the number that bears it, so a walk ends.
ghost use Rattle.std.specs.Prelude.{◌≡◌, ◌+◌, ◌*◌, ◌<◌, ◌≤◌, length};
ghost use Rattle.merge.specs.Steps.{Falling, Walked, Above, Member, Unlinked, Joinable, Linked, StillLent, pick};

use crate::{Chains, Disc, list};

impl Chains<'_> {
    // The lowest number of a chain that lies in the disc, or the best number yet where that is lower.
    pub fn walk(&self, corners: &[f32], from: usize, disc: Disc, best: usize) -> usize
        requires falling { Falling self.now.links.now 0 from }
        requires in_list { 3 * from ≤ length corners.now }
        ensures { Walked corners.now self.now.links.now from disc best result }
    {
        let mut p = from;
        let mut found = best;
        while 0 < p {
            found = lower(corners, p - 1, disc, found);
            p = self.links[p - 1] as usize;
        }
        found
    }

    // The lowest number of a chain that is above j. The chain starts above j.
    fn above(&self, from: usize, j: usize) -> usize
        requires falling { Falling self.now.links.now (j + 1) from }
        requires above { j + 1 < from }
        ensures { Above self.now.links.now from j result }
    {
        let mut q = from - 1;
        let mut next = self.links[q] as usize;
        while j + 1 < next {
            q = next - 1;
            next = self.links[q] as usize;
        }
        q
    }

    // Takes corner j out of the chain of its cell c.
    pub fn unlink(&mut self, c: usize, j: usize)
        requires { Member self.old.heads.now self.old.links.now c j }
        ensures unlinked { Unlinked self.old.heads.now self.old.links.now c j self.new.heads.now self.new.links.now }
        ensures lent { StillLent self.old self.new }
    {
        let next = self.links[j];
        let head = self.heads[c] as usize;
        if head == j + 1 {
            self.heads[c] = next;
            return;
        }
        let q = self.above(head, j);
        self.links[q] = next;
    }

    // Puts corner j into the chain of cell c, at its place.
    pub fn link(&mut self, c: usize, j: usize)
        requires { Joinable self.old.heads.now self.old.links.now c j }
        ensures linked { Linked self.old.heads.now self.old.links.now c j self.new.heads.now self.new.links.now }
        ensures lent { StillLent self.old self.new }
    {
        let me = (j + 1) as u16;
        let head = self.heads[c];
        let from = head as usize;
        if from <= j {
            self.links[j] = head;
            self.heads[c] = me;
            return;
        }
        let q = self.above(from, j);
        self.links[j] = self.links[q];
        self.links[q] = me;
    }
}

// j where it lies in the disc and is lower than the best number yet. The disc is asked first, so that the choice needs no branch.
fn lower(corners: &[f32], j: usize, disc: Disc, best: usize) -> usize
    requires { 3 * j + 2 < length corners.now }
    ensures { result ≡ pick disc corners.now j best }
{
    if list::near(corners, j, disc) {
        j.min(best)
    } else {
        best
    }
}
