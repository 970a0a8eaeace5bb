// The numbers of a slice, and the least of some.
ghost use Rattle.std.specs.Prelude.{◌≡◌, ◌+◌, ◌≤◌, ◌<◌, length, get_or};
ghost use Rattle.legs.specs.Known.{AtMost};

use crate::leg_list::LegList;

impl LegList<'_> {
    // The number at position k.
    pub fn number(self, k: usize) -> usize
        requires { k < self.points.n }
        ensures { (result ≡ get_or self.entry.legs.now k 0) × (result < 65536) }
    {
        usize::from(self.legs[k])
    }
}

// The least of eight numbers, from position k on. No comparison waits for more than two others.
pub fn least_of_eight(numbers: &[u16], k: usize) -> usize
    requires { k + 8 ≤ length numbers.now }
    ensures { AtMost numbers.now k (k + 8) result }
{
    let n = &numbers[k..k + 8];
    let first = n[0].min(n[1]).min(n[2].min(n[3]));
    let last = n[4].min(n[5]).min(n[6].min(n[7]));
    usize::from(first.min(last))
}
