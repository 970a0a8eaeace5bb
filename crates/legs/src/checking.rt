// The tests of a proposal.
ghost use Rattle.std.specs.Prelude.{◌≡◌, suc, pred, ◌≤◌, length, get_or};
ghost use Rattle.basics.specs.Bounded.{every};
ghost use Rattle.legs.specs.Choices.{is_leg};
ghost use Rattle.legs.specs.Answer.{kept_right, numbers_right, zero_from, true_choice};
ghost use Rattle.legs.specs.Lists.{sight_in};

use crate::leg_list::LegList;

// The slice has 0 from place k on.
fn zero_from(s: &[u16], k: usize) -> bool
    ensures { result ≡ zero_from k s.now }
{
    s.iter().skip(k).all(|number| *number == 0)
}

impl LegList<'_> {
    // Every number is the fewest legs from its position, tested from the last position on: 0 there, and at each other
    // position one more than the fewest legs left after one leg.
    fn numbers_right(self) -> bool
        ensures { result ≡ numbers_right (sight_in self.entry) self.entry.points.n self.entry.legs.now }
    {
        let last = self.points.n - 1;
        if self.number(last) != 0 {
            return false;
        }
        for i in (0..last).rev() {
            let here = self.number(i);
            if self.least_ahead(i, here) + 1 != here {
                return false;
            }
        }
        true
    }

    // Whether there is a leg from i to j, which may be any numbers.
    #[tactic(auto, unfolding(crate::specs::Choices::is_leg))]
    fn is_leg(self, i: usize, j: usize) -> bool
        ensures { result ≡ is_leg (sight_in self.entry) self.entry.points.n i j }
    {
        i < j && j < self.points.n && self.points.sees(i, j)
    }

    // From each of the first `count` kept positions to the next is a leg.
    fn legs_open(self, kept: &[u16], count: usize) -> bool
        requires { (1 ≤ count) × (count ≤ length kept.now) }
        ensures { result ≡ every (pred count) (λ k. is_leg (sight_in self.entry) self.entry.points.n
            (get_or kept.now k 0) (get_or kept.now (suc k) 0)) }
    {
        (0..count - 1).all(|k| self.is_leg(usize::from(kept[k]), usize::from(kept[k + 1])))
    }

    // The first `count` kept positions start at 0, end at n - 1, rise, and see each the next.
    #[tactic(auto, unfolding(crate::specs::Answer::kept_right))]
    fn kept_right(self, kept: &[u16], count: usize) -> bool
        ensures { result ≡ kept_right (sight_in self.entry) self.entry.points.n kept.now count }
    {
        1 <= count
            && count <= kept.len()
            && kept[0] == 0
            && usize::from(kept[count - 1]) + 1 == self.points.n
            && self.legs_open(kept, count)
    }

    // The proposal is what is accepted of one of good shape: the quick tests come first.
    #[tactic(auto, unfolding(crate::specs::Answer::true_choice))]
    pub fn true_choice(self, kept: &[u16], count: usize) -> bool
        ensures { result ≡ true_choice (sight_in self.entry) self.entry.points.n kept.now count
            self.entry.legs.now }
    {
        self.kept_right(kept, count)
            && count == self.number(0) + 1
            && zero_from(kept, count)
            && zero_from(self.legs, self.points.n)
            && self.numbers_right()
    }
}
