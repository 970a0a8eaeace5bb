// The fewest legs left at a position to which one leg leads.
ghost use Rattle.std.specs.Prelude.{suc, ◌+◌, ◌≤◌, ◌<◌};
ghost use Rattle.legs.specs.Lists.{LeastIn};

use crate::leg_list::LegList;
use crate::numbers;

impl LegList<'_> {
    // The lesser of `cap` and the number at position j, where i has a leg to j, else `cap`. Sight is asked only where
    // the number at j is the lesser.
    fn least_at(self, i: usize, j: usize, cap: usize) -> usize
        requires { (i < j) × (j < self.points.n) }
        ensures { LeastIn self.entry i j (j + 1) cap result }
    {
        let there = self.number(j);
        if there < cap && self.points.sees(i, j) {
            there
        } else {
            cap
        }
    }

    // The least of `cap` and the numbers at the positions from a to before b to which i has a leg, in their order.
    fn least_between(self, i: usize, a: usize, b: usize, cap: usize) -> usize
        requires { (i < a) × (b ≤ self.points.n) }
        ensures { LeastIn self.entry i a b cap result }
    {
        let mut least = cap;
        for j in a..b {
            least = self.least_at(i, j, least);
        }
        least
    }

    // The same of eight positions. Where none of their numbers is below `cap` they are passed over at once.
    fn least_in_eight(self, i: usize, a: usize, cap: usize) -> usize
        requires { (i < a) × (a + 8 ≤ self.points.n) }
        ensures { LeastIn self.entry i a (a + 8) cap result }
    {
        if cap <= numbers::least_of_eight(self.legs, a) {
            return cap;
        }
        self.least_between(i, a, a + 8, cap)
    }

    // The least of `cap` and the numbers at the positions to which i has a leg. There is one to the next position,
    // since each sees the next. A near position with one leg fewer left is sought first.
    pub fn least_ahead(self, i: usize, cap: usize) -> usize
        requires { suc i < self.points.n }
        ensures { LeastIn self.entry i (suc i) self.entry.points.n cap result }
    {
        let next = cap.min(self.number(i + 1));
        let mut least = if self.near_ahead(i, next) {
            next - 1
        } else {
            next
        };
        let mut j = i + 2;
        // Kept: tried by `step_by` with the rest as a shorter step, misses the speed of `check` and `propose`.
        while j + 8 <= self.points.n {
            least = self.least_in_eight(i, j, least);
            j += 8;
        }
        self.least_between(i, j, self.points.n, least)
    }
}
