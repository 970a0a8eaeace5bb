// One leg fewer, sought near i. The order in which sight is asked is all that hangs on this search.
ghost use Rattle.std.specs.Prelude.{suc, ◌+◌, ◌≤◌, ◌<◌};
ghost use Rattle.legs.specs.Lists.{FewerIn};

use crate::leg_list::LegList;
use crate::numbers;

impl LegList<'_> {
    // Whether the vertices at positions i and j are near: at most 24 columns apart, and their numbers at most as far as
    // 24 rows.
    fn is_near(self, i: usize, j: usize) -> bool
        requires { (i < self.points.n) × (j < self.points.n) }
    {
        let columns = self.points.floor.w + 1;
        let a = usize::from(self.points.list[i]);
        let b = usize::from(self.points.list[j]);
        a.abs_diff(b) <= 24 * columns && (a % columns).abs_diff(b % columns) <= 24
    }

    // Whether the number at position j is one less than `cap`, j is near i and i has a leg to j.
    #[inline(always)]
    fn near_at(self, i: usize, j: usize, cap: usize) -> bool
        requires { (i < j) × (j < self.points.n) }
        ensures { FewerIn self.entry i cap result }
    {
        self.number(j) + 1 == cap && self.is_near(i, j) && self.points.sees(i, j)
    }

    // The same of some position from a to before b.
    #[inline(always)]
    fn near_between(self, i: usize, a: usize, b: usize, cap: usize) -> bool
        requires { (i < a) × (b ≤ self.points.n) }
        ensures { FewerIn self.entry i cap result }
    {
        (a..b).any(|j| self.near_at(i, j, cap))
    }

    // The same of eight positions. Where none of their numbers is below `cap` they are passed over at once.
    #[inline(always)]
    fn near_in_eight(self, i: usize, a: usize, cap: usize) -> bool
        requires { (i < a) × (a + 8 ≤ self.points.n) }
        ensures { FewerIn self.entry i cap result }
    {
        numbers::least_of_eight(self.legs, a) < cap && self.near_between(i, a, a + 8, cap)
    }

    // The same of the positions past the next.
    pub fn near_ahead(self, i: usize, cap: usize) -> bool
        requires { suc i < self.points.n }
        ensures { FewerIn self.entry i cap result }
    {
        let mut j = i + 2;
        // Kept: tried by `step_by` with the rest as a shorter step, misses the speed of `check` and `propose`.
        while j + 8 <= self.points.n {
            if self.near_in_eight(i, j, cap) {
                return true;
            }
            j += 8;
        }
        self.near_between(i, j, self.points.n, cap)
    }
}
