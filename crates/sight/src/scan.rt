// The blocked cell or the shut step in the way, by a look at each step along a grid line or at each cell entered, from
// the first end towards the other.
ghost use Rattle.std.specs.Prelude.{◌≡◌, suc, ◌-◌, ◌<◌, ◌≤◌};
ghost use Rattle.floor.specs.Floor.{cell_number, blocked};
ghost use Rattle.floor.specs.Plan.{floor_on};
ghost use Rattle.sight.specs.Obstacle.{span, cell_on, first, blockage, upright_step, level_step};
ghost use Rattle.sight.specs.Travel.{upright_to, level_to, row_obstacle, cell_there, RowRun};
ghost use Rattle.sight.specs.Travel.{Carried, RunBetween};
ghost use Rattle.sight.specs.Drawn.{floor_under, drawn};

use crate::Obstacle;
use crate::pinches::point_at;
use crate::segment::Segment;
use floor::{Cell, FloorPlan};

// The far line of the k-th cell from a towards b, as `blocked_at` wants it: one more than the cell's number.
#[tactic(auto, unfolding(crate::specs::Obstacle::span, crate::specs::Obstacle::cell_on))]
fn line_at(a: usize, b: usize, k: usize) -> usize
    requires { (a ≤ 127) × (b ≤ 127) × (k < span a b) }
    ensures { result ≡ suc (cell_on a b k) }
{
    if a <= b {
        return a + k + 1;
    }
    a - k
}

// `blocked_at` for a cell of the floor, which is read with no test of x and y.
fn inside_blocked(floor: FloorPlan<'_>, x: usize, y: usize) -> bool
    requires { (1 ≤ x) × (x ≤ floor.w) × (1 ≤ y) × (y ≤ floor.h) }
    ensures { result ≡ blocked (floor_on floor.entry) x y }
{
    floor::is_blocked(floor.map, floor.cell_before(x, y))
}

// The cell that has the vertex (x, y) as its lower right corner, as an answer names it. It is not inlined, so that the
// loop over the cells of a row does not make the answer for each cell that it reads.
#[inline(never)]
fn cell_named(w: usize, x: usize, y: usize) -> Cell
    requires { (w ≤ 127) × (1 ≤ x) × (x ≤ w) × (1 ≤ y) × (y ≤ 127) }
    ensures { result.0 ≡ cell_number w (x - 1) (y - 1) }
{
    floor::cell_at(w, x - 1, y - 1)
}

// The step along column line x that ends on row line y is not shut: one of the cells beside it is open. Both are read
// in any case, so that no branch depends on a cell.
pub fn upright_open(floor: FloorPlan<'_>, x: usize, y: usize) -> bool
    requires { x ≤ floor.w }
    ensures { result ≡ upright_to (floor_on floor.entry) x y }
{
    let left = floor.blocked_at(x, y);
    let right = floor.blocked_at(x + 1, y);
    !(left && right)
}

// The step along row line y that ends on column line x is not shut. Its cells lie in a column of the floor, so that x is
// not tested.
pub fn level_open(floor: FloorPlan<'_>, x: usize, y: usize) -> bool
    requires { (1 ≤ x) × (x ≤ floor.w) × (y ≤ floor.h) }
    ensures { result ≡ level_to (floor_on floor.entry) x y }
{
    let above = y == 0 || inside_blocked(floor, x, y);
    let below = floor.h <= y || inside_blocked(floor, x, y + 1);
    !(above && below)
}

// Where a segment crosses a row line: so many whole columns from the first end, and a rest, of which `dy` make a
// column.
#[derive(Clone, Copy)]
struct Crossing {
    column: usize,
    rest: usize,
}

impl Crossing {
    // The crossing one row on: `step` columns and a rest of `part` more, with no division.
    fn next(self, step: usize, part: usize, dy: usize) -> Crossing
        requires { (self.column ≤ 127) × (step ≤ 127) × (self.rest < dy) × (part < dy) × (dy ≤ 127) }
        ensures { Carried self.column self.rest step part dy result.column result.rest }
    {
        let column = self.column + step;
        let rest = self.rest + part;
        if rest < dy {
            return Crossing { column, rest };
        }
        Crossing {
            column: column + 1,
            rest: rest - dy,
        }
    }

    // The cells entered between two crossings one row apart are those from the column of the first to before the column
    // that this returns: the cell where the second falls is entered, unless the segment leaves the row at a corner.
    fn past(self, to: Crossing) -> usize
        requires { to.column ≤ 127 }
        ensures { RunBetween self.column self.rest to.column to.rest result }
    {
        if to.rest == 0 {
            return to.column;
        }
        to.column + 1
    }
}

impl<'a> Segment<'a> {
    // The k-th step of a segment along a column line, where it is shut.
    #[tactic(auto, unfolding(crate::specs::Obstacle::upright_step, crate::specs::Sight::upright_open, crate::specs::Obstacle::span, crate::specs::Obstacle::start_on))]
    fn upright_step(self, k: usize) -> Option<Obstacle>
        requires { k < self.rows }
        ensures { result ≡ upright_step (floor_under self.entry) self.entry.x0 self.entry.y0 self.entry.y1 k }
    {
        if upright_open(self.floor, self.x0, line_at(self.y0, self.y1, k)) {
            return None;
        }
        let start = point_at(self.y0, self.y1, k);
        Some(Obstacle::Step(floor::vertex_at(self.floor.w, self.floor.h, self.x0, start)))
    }

    // The k-th step of a segment along a row line, where it is shut.
    #[tactic(auto, unfolding(crate::specs::Obstacle::level_step, crate::specs::Sight::level_open, crate::specs::Obstacle::span, crate::specs::Obstacle::start_on, crate::specs::Obstacle::cell_on))]
    fn level_step(self, k: usize) -> Option<Obstacle>
        requires { k < self.columns }
        ensures { result ≡ level_step (floor_under self.entry) self.entry.y0 self.entry.x0 self.entry.x1 k }
    {
        if level_open(self.floor, line_at(self.x0, self.x1, k), self.y0) {
            return None;
        }
        let start = point_at(self.x0, self.x1, k);
        Some(Obstacle::Step(floor::vertex_at(self.floor.w, self.floor.h, start, self.y0)))
    }

    // The first shut step of a segment along a column line.
    fn upright_obstacle(self) -> Option<Obstacle>
        ensures { result
            ≡ first self.entry.rows (upright_step (floor_under self.entry) self.entry.x0 self.entry.y0 self.entry.y1) }
    {
        // Kept: tried, misses the speed of this loop: `find_map`, with 1.2 of the instructions on an open floor.
        for k in 0..self.rows {
            if let Some(found) = self.upright_step(k) {
                return Some(found);
            }
        }
        None
    }

    // The first shut step of a segment along a row line.
    fn level_obstacle(self) -> Option<Obstacle>
        ensures { result
            ≡ first self.entry.columns (level_step (floor_under self.entry) self.entry.y0 self.entry.x0 self.entry.x1) }
    {
        // Kept: tried, misses the speed of this loop: `find_map`, with 1.2 of the instructions on an open floor.
        for k in 0..self.columns {
            if let Some(found) = self.level_step(k) {
                return Some(found);
            }
        }
        None
    }

    // The cell c columns and r rows from the first end, where it is blocked.
    #[tactic(auto, unfolding(crate::specs::Travel::cell_there, crate::specs::Obstacle::span, crate::specs::Obstacle::cell_on))]
    fn cell_there(self, c: usize, r: usize) -> Option<Obstacle>
        requires { (c < self.columns) × (r < self.rows) }
        ensures { result ≡ cell_there (floor_under self.entry) (drawn self.entry) r c }
    {
        let x = line_at(self.x0, self.x1, c);
        let y = line_at(self.y0, self.y1, r);
        if inside_blocked(self.floor, x, y) {
            return Some(Obstacle::Cell(cell_named(self.floor.w, x, y)));
        }
        None
    }

    // The first blocked cell entered in the row r rows from the first end, by a look at each cell entered there.
    fn row_obstacle(self, r: usize, first: usize, past: usize) -> Option<Obstacle>
        requires { (r < self.rows) × RowRun (drawn self) r first past }
        ensures { result ≡ row_obstacle (floor_under self.entry) (drawn self.entry) r }
    {
        (first..past).find_map(|c| self.cell_there(c, r))
    }

    // The first blocked cell entered, row by row from the first end. The cells entered rise like stairs, so it is also
    // the first by columns. Where the segment crosses a row line is carried from row to row: the one division stands
    // before the loop.
    fn slanted_obstacle(self) -> Option<Obstacle>
        requires { 1 ≤ self.rows }
        ensures { result ≡ first self.entry.rows (row_obstacle (floor_under self.entry) (drawn self.entry)) }
    {
        let step = self.columns / self.rows;
        let part = self.columns % self.rows;
        let mut at = Crossing { column: 0, rest: 0 };
        for r in 0..self.rows {
            let next = at.next(step, part, self.rows);
            if let Some(found) = self.row_obstacle(r, at.column, at.past(next)) {
                return Some(found);
            }
            at = next;
        }
        None
    }

    // The same for a segment with more rows than columns. It enters one cell of a row or two: the one in the column of
    // the first crossing, and the next one, if it is entered before the row ends.
    fn steep_obstacle(self) -> Option<Obstacle>
        requires { (1 ≤ self.columns) × (self.columns < self.rows) }
        ensures { result ≡ first self.entry.rows (row_obstacle (floor_under self.entry) (drawn self.entry)) }
    {
        let mut at = Crossing { column: 0, rest: 0 };
        for r in 0..self.rows {
            if let Some(found) = self.cell_there(at.column, r) {
                return Some(found);
            }
            at.rest += self.columns;
            if self.rows <= at.rest {
                at.column += 1;
                at.rest -= self.rows;
                if at.rest != 0
                    && let Some(found) = self.cell_there(at.column, r)
                {
                    return Some(found);
                }
            }
        }
        None
    }

    // The cell or the step in the way, at any distance: along a column line, along a row line, or slanted.
    pub fn far_blockage(self) -> Option<Obstacle>
        ensures { result ≡ blockage (floor_under self.entry) (drawn self.entry) }
    {
        if self.columns == 0 {
            return self.upright_obstacle();
        }
        if self.rows == 0 {
            return self.level_obstacle();
        }
        if self.columns < self.rows {
            return self.steep_obstacle();
        }
        self.slanted_obstacle()
    }
}
