// The pinches that a segment passes, looked at in turn from the first end.
ghost use Rattle.std.specs.Prelude.{◌≡◌, ◌+◌, ◌≤◌};
ghost use Rattle.basics.specs.Bounded.{pick};
ghost use Rattle.floor.specs.Plan.{floor_on};
ghost use Rattle.sight.specs.Sight.{pinch, still};
ghost use Rattle.sight.specs.Obstacle.{span, start_on, or_else, nearest_pinch};
ghost use Rattle.sight.specs.Travel.{Common, pinch_here, pinch_there};
ghost use Rattle.sight.specs.Drawn.{floor_under, drawn};

use crate::Obstacle;
use crate::segment::Segment;
use floor::FloorPlan;

// Whether the vertex (x, y) is a pinch. No vertex of the floor's edge is: two cells outside lie side by side there.
// Elsewhere all four cells are read in any case, so that no branch depends on a cell.
pub fn pinch_at(floor: FloorPlan<'_>, x: usize, y: usize) -> bool
    requires { (x ≤ floor.w) × (y ≤ floor.h) }
    ensures { result ≡ pinch (floor_on floor.entry) x y }
{
    if x == 0 || y == 0 || floor.w <= x || floor.h <= y {
        return false;
    }
    let a = floor.blocked_at(x, y);
    let b = floor.blocked_at(x + 1, y + 1);
    let c = floor.blocked_at(x + 1, y);
    let d = floor.blocked_at(x, y + 1);
    a != c && a == b && c == d
}

// The vertex (x, y) as an answer, where it is a pinch.
#[tactic(auto, unfolding(crate::specs::Travel::pinch_here))]
fn pinch_here(floor: FloorPlan<'_>, x: usize, y: usize) -> Option<Obstacle>
    requires { (x ≤ floor.w) × (y ≤ floor.h) }
    ensures { result ≡ pinch_here (floor_on floor.entry) x y }
{
    if pinch_at(floor, x, y) {
        return Some(Obstacle::Pinch(floor::vertex_at(floor.w, floor.h, x, y)));
    }
    None
}

// The greatest number that divides both, by Euclid's method.
fn common(a: usize, b: usize) -> usize
    ensures { Common a b result }
{
    let mut n = a;
    let mut m = b;
    while m != 0 {
        let over = n % m;
        n = m;
        m = over;
    }
    n
}

// The line k lines from a towards b.
#[tactic(auto, unfolding(crate::specs::Obstacle::span, crate::specs::Obstacle::start_on))]
pub fn point_at(a: usize, b: usize, k: usize) -> usize
    requires { (a ≤ 127) × (b ≤ 127) × (k ≤ span a b) }
    ensures { result ≡ start_on a b k }
{
    if a <= b {
        return a + k;
    }
    a - k
}

impl<'a> Segment<'a> {
    // The first end, where it is a pinch, else the last.
    fn ends_pinch(self) -> Option<Obstacle>
        ensures { result ≡ or_else (pinch_here (floor_under self.entry) self.entry.x0 self.entry.y0)
            (pinch_here (floor_under self.entry) self.entry.x1 self.entry.y1) }
    {
        match pinch_here(self.floor, self.x0, self.y0) {
            None => pinch_here(self.floor, self.x1, self.y1),
            found => found,
        }
    }

    // The vertex c columns and r rows from the first end, where it is a pinch.
    #[tactic(auto, unfolding(crate::specs::Travel::pinch_there, crate::specs::Obstacle::span, crate::specs::Obstacle::start_on))]
    fn pinch_there(self, c: usize, r: usize) -> Option<Obstacle>
        requires { (c ≤ self.columns) × (r ≤ self.rows) }
        ensures { result ≡ pinch_there (floor_under self.entry) (drawn self.entry) c r }
    {
        pinch_here(
            self.floor,
            point_at(self.x0, self.x1, c),
            point_at(self.y0, self.y1, r),
        )
    }

    // The nearest pinch, by a look at the vertices passed and no others: they lie as far apart as the ends are, divided
    // by the greatest number that divides both columns and rows. Columns and rows are added up from vertex to vertex: as
    // products they would be two multiplications for each.
    fn nearest_pinch(self) -> Option<Obstacle>
        requires { 1 ≤ self.columns + self.rows }
        ensures { result ≡ nearest_pinch (floor_under self.entry) (drawn self.entry) }
    {
        let n = common(self.columns, self.rows);
        let across = self.columns / n;
        let down = self.rows / n;
        let mut c: usize = 0;
        let mut r: usize = 0;
        // Kept: no plainer, since columns and rows are carried from vertex to vertex.
        for k in 0..n + 1 {
            if let Some(found) = self.pinch_there(c, r) {
                return Some(found);
            }
            c += across;
            r += down;
        }
        None
    }

    // The pinch nearest the first end, of those passed. A segment of no length passes none. One of at most one column
    // and one row passes its ends alone.
    pub fn pinch(self) -> Option<Obstacle>
        ensures { result
            ≡ pick (still (drawn self.entry)) None (nearest_pinch (floor_under self.entry) (drawn self.entry)) }
    {
        if self.columns == 0 && self.rows == 0 {
            return None;
        }
        if self.columns <= 1 && self.rows <= 1 {
            return self.ends_pinch();
        }
        self.nearest_pinch()
    }
}
