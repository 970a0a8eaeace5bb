// Our own proposal.
ghost use Rattle.std.specs.Prelude.{◌≡◌, suc, ◌≤◌, ◌<◌, ◌&&◌, eqb, length, get_or};
ghost use Rattle.thinning.specs.Points.{seen_in};
ghost use Rattle.legs.specs.Choices.{is_leg};
ghost use Rattle.legs.specs.Answer.{farthest_next};
ghost use Rattle.legs.specs.Known.{JoinedOn, Filled, Recorded};
ghost use Rattle.legs.specs.Lists.{sight_in, RightIn};

use crate::leg_list::LegList;
use thinning::PointList;

// Fills the first slice with the proposed positions and the second with the fewest legs, both then 0, and returns how many
// positions there are.
pub fn fill(points: PointList<'_>, kept: &mut [u16], legs: &mut [u16]) -> usize
    requires { JoinedOn points.floor.w points.floor.h points.floor.map.now points.list.now points.n
        × (points.n ≤ length kept.old) × (points.n ≤ length legs.old) }
    ensures positions { Recorded (seen_in points.entry) points.entry.n kept.old result
        kept.new }
    ensures numbers { Filled (seen_in points.entry) points.entry.n legs.old legs.new }
{
    fill_legs(points, legs);
    LegList { points, legs }.record_kept(kept)
}

// Fills the slice with the fewest legs from each position, from the last on, then 0.
fn fill_legs(points: PointList<'_>, legs: &mut [u16])
    requires { JoinedOn points.floor.w points.floor.h points.floor.map.now points.list.now points.n
        × (points.n ≤ length legs.old) }
    ensures { Filled (seen_in points.entry) points.entry.n legs.old legs.new }
{
    legs.fill(0);
    for i in (0..points.n - 1).rev() {
        let least = LegList { points, legs }.least_ahead(i, points.n);
        legs[i] = (least + 1) as u16;
    }
}

impl LegList<'_> {
    // Whether there is a leg from i to j that leaves one leg fewer. Sight is asked only where the numbers say so.
    fn goes_on(self, i: usize, j: usize) -> bool
        requires { (i < j) × (j < self.points.n) }
        ensures { result ≡ (is_leg (sight_in self.entry) self.entry.points.n i j
            && eqb (get_or self.entry.legs.now i 0) (suc (get_or self.entry.legs.now j 0))) }
    {
        self.number(i) == self.number(j) + 1 && self.points.sees(i, j)
    }

    // The farthest position to which i has a leg that leaves one leg fewer, sought from the last position down. There
    // is one.
    fn farthest_next(self, i: usize) -> usize
        requires { (suc i < self.points.n) × RightIn self }
        ensures { result ≡ farthest_next (sight_in self.entry) self.entry.points.n i }
    {
        for j in (i + 1..self.points.n).rev() {
            if self.goes_on(i, j) {
                return j;
            }
        }
        unreachable!()
    }

    // Writes the proposed positions into the slice, then 0, and returns how many there are.
    pub fn record_kept(self, kept: &mut [u16]) -> usize
        requires { (self.points.n ≤ length kept.old) × RightIn self }
        ensures { Recorded (sight_in self.entry) self.entry.points.n kept.old result
            kept.new }
    {
        thinning::record(self.points.n, kept, |i| self.farthest_next(i))
    }
}
