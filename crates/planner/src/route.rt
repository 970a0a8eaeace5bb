// The next vertices, and the central route, which is the walk through them.
ghost use Rattle.std.specs.Prelude.{◌≡◌, ◌≤◌, ◌<◌, length};
ghost use Rattle.basics.specs.Lists.{tabulate, zeros};
ghost use Rattle.paths.specs.Graph.{Graph};
ghost use Rattle.planner.specs.Parts.{number_by, ChoosableBy, NumberedBy, Walkable, Routed};

use moves::Directions;

// The number of vertices in a part. Each part is tested for a vertex on the way before its next vertices are chosen.
const PART: usize = 64;

// What the next vertices of a job with a route are chosen by: the directions of its neighbourhood and by how much each
// changes a vertex number, the goal b, the costs and counts of the sheet, and the masks in the working slice.
#[derive(Clone, Copy)]
pub struct Numbers<'a> {
    pub dirs: Directions,
    pub shifts: &'a [usize],
    pub b: usize,
    pub d: &'a [u32],
    pub e: &'a [u32],
    pub f: &'a [u64],
    pub back: &'a [u64],
    pub work: &'a [u32],
}

impl Numbers<'_> {
    // The next vertex of v as the sheet has it: 0 off the way, b at b, and on the way before b the one that the central
    // rule chooses.
    fn next_number(self, v: usize) -> usize
        requires { ChoosableBy self × (v < length self.d.now) }
        ensures { (result ≡ number_by self.entry v) × (result < length self.entry.d.now) }
    {
        if !neighbours::on_way(self.d, self.e, self.b, v) {
            return 0;
        }
        if v == self.b {
            return self.b;
        }
        let mask = workspace::mask_at(self.work, self.d.len(), v);
        neighbours::next_at(
            self.dirs,
            self.shifts,
            mask,
            self.d,
            self.e,
            self.f,
            self.back,
            self.b,
            v,
        )
        .0
    }

    // Writes the next vertices of the vertices from `first` to before `past`.
    fn fill_part(self, next: &mut [u16], first: usize, past: usize)
        requires { ChoosableBy self × NumberedBy self first next.old × (first ≤ past) × (past ≤ length self.d.now) }
        ensures { NumberedBy self.entry past next.new }
    {
        for v in first..past {
            next[v] = self.next_number(v) as u16;
        }
    }

    // Fills the slice, all 0 before, with the next vertex of every vertex. A part with no vertex on the way is skipped:
    // its numbers are 0.
    pub fn fill_next(self, next: &mut [u16])
        requires { ChoosableBy self × (next.old ≡ zeros (length self.d.now)) }
        ensures { next.new ≡ tabulate (length self.entry.d.now) (number_by self.entry) }
    {
        let count = (self.d.len() + PART - 1) / PART;
        for part in 0..count {
            let first = part * PART;
            let past = self.d.len().min(first + PART);
            if neighbours::any_on_way(self.d, self.e, self.b, first, past) {
                self.fill_part(next, first, past);
            }
        }
    }
}

// Writes the central route from a to b, the walk through the next vertices, into the route slice, all 0 before, and
// answers the number of its points.
pub fn write_route(a: usize, b: usize, next: &[u16], route: &mut [u16]) -> usize
    requires { (g : Graph) × Walkable g a b next.now route.old }
    ensures { (g : Graph) → Walkable g a b next.now route.old
        → Routed g a b route.new result }
{
    let mut n: usize = 0;
    let mut at = a;
    while at != b {
        route[n] = at as u16;
        n += 1;
        at = usize::from(next[at]);
    }
    route[n] = at as u16;
    n + 1
}
