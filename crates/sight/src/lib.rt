// Line of sight between two vertices of a floor, and the sight question.
#![tactic(auto)]

ghost use Rattle.std.specs.Prelude.{◌≡◌, ◌+◌, ◌<◌, ◌≤◌};
ghost use Rattle.floor.specs.Floor.{vertices};
ghost use Rattle.floor.specs.Plan.{floor_on};
ghost use Rattle.sight.specs.Sight.{segment_of, segment, unblocked, pinch, sees};
ghost use Rattle.sight.specs.Obstacle.{blockage, obstacle};
ghost use Rattle.sight.specs.Question.{sight_answer, sight_number};
ghost use Rattle.sight.specs.Travel.{Ends, Apart, Narrow};
ghost use Rattle.sight.specs.Drawn.{floor_under, drawn};

use floor::{Cell, FloorPlan, Refusal, Vertex};

mod pinches; // pinches.rt: the pinches that a segment passes
mod scan; // scan.rt: the steps of a segment along a grid line, and the cells that a slanted one enters
mod segment; // segment.rt: a segment between two vertices

use segment::Segment;

// What is in the way from one vertex to another: a blocked cell that is entered; a shut step, given by the vertex where
// it begins; or a pinch.
#[derive(Clone, Copy, Debug, PartialEq, Eq)]
pub enum Obstacle {
    Cell(Cell),
    Step(Vertex),
    Pinch(Vertex),
}

// The answer to the sight question as a number: 0 clear, 100 an obstacle, else the number of the refusal.
pub fn sight_number(s: Result<Option<Obstacle>, Refusal>) -> u8
    ensures { result ≡ sight_number s }
{
    match s {
        Err(r) => u8::from(r),
        Ok(None) => 0,
        Ok(Some(_)) => 100,
    }
}

impl<'a> Segment<'a> {
    // Whether no blocked cell and no shut step is in the way, where the ends are at most one column and one row apart.
    // It reads the two cells beside a step, or the one cell across a diagonal. It is inlined in any case: called, it makes
    // its caller store the segment in memory for each question.
    #[inline(always)]
    #[tactic(auto, unfolding(crate::specs::Obstacle::span))]
    fn is_unit_unblocked(self) -> bool
        requires { (self.columns ≤ 1) × (self.rows ≤ 1) }
        ensures { result ≡ unblocked (floor_under self.entry) (drawn self.entry) }
    {
        let x = self.x0.max(self.x1);
        let y = self.y0.max(self.y1);
        if self.columns == 0 {
            return self.rows == 0 || scan::upright_open(self.floor, self.x0, y);
        }
        if self.rows == 0 {
            return scan::level_open(self.floor, x, self.y0);
        }
        !self.floor.blocked_at(x, y)
    }

    // The blocked cell or the shut step in the way, where the ends are at most one column and one row apart.
    #[inline(always)]
    fn unit_blockage(self) -> Option<Obstacle>
        requires { (self.columns ≤ 1) × (self.rows ≤ 1) }
        ensures { result ≡ blockage (floor_under self.entry) (drawn self.entry) }
    {
        if self.is_unit_unblocked() {
            return None;
        }
        let floor = self.floor;
        if self.columns == 0 || self.rows == 0 {
            return Some(Obstacle::Step(floor::vertex_at(floor.w, floor.h, self.x0, self.y0)));
        }
        Some(Obstacle::Cell(floor.cell_before(self.x0.max(self.x1), self.y0.max(self.y1))))
    }

    // The blocked cell or the shut step in the way. A segment of at most one column and one row needs no scan.
    fn blockage(self) -> Option<Obstacle>
        ensures { result ≡ blockage (floor_under self.entry) (drawn self.entry) }
    {
        if self.columns <= 1 && self.rows <= 1 {
            return self.unit_blockage();
        }
        self.far_blockage()
    }

    // What is in the way: a blocked cell or a shut step, wherever it is; else the pinch nearest the first end.
    #[tactic(auto, unfolding(crate::specs::Obstacle::obstacle))]
    fn obstacle(self) -> Option<Obstacle>
        ensures { result ≡ obstacle (floor_under self.entry) (drawn self.entry) }
    {
        match self.blockage() {
            None => self.pinch(),
            found => found,
        }
    }

    // Whether no blocked cell is in the way between ends two columns and one row apart, or one column and two rows. The
    // segment enters two cells and goes along no grid line. One is the cell before the higher column line and the
    // higher row line; the other is its neighbour before it, in its row or in its column. Both are always read, so that
    // no branch depends on a cell.
    #[inline(always)]
    fn is_two_cells_unblocked(self) -> bool
        requires { (self.columns ≤ 2) × (self.rows ≤ 2) × (self.columns + self.rows ≡ 3) }
        ensures { result ≡ unblocked (floor_under self.entry) (drawn self.entry) }
    {
        let x = self.x0.max(self.x1);
        let y = self.y0.max(self.y1);
        let other = self
            .floor
            .blocked_at(x + 1 - self.columns, y + 1 - self.rows);
        let last = self.floor.blocked_at(x, y);
        !(other || last)
    }
}

// Whether no blocked cell and no shut step is in the way between two vertices as far apart as a move leads: one column
// or one row, and at most two of the other. With the pinches at its ends, that is the test of a move. It reads one or
// two cells. Where a caller gives constant lengths, as for the moves of a table, the tests of them fold away; for that
// it is inlined in any case.
// Kept: what may not change: the clauses of `is_unblocked`, by which a caller gives ends and lengths that it knows.
#[inline(always)]
pub fn is_unblocked(
    floor: FloorPlan<'_>,
    x0: usize,
    y0: usize,
    x1: usize,
    y1: usize,
    columns: usize,
    rows: usize,
) -> bool
    requires { Ends floor.w floor.h x0 y0 x1 y1 × Apart x0 y0 x1 y1 columns rows × Narrow columns rows }
    ensures { result ≡ unblocked (floor_on floor.entry) (segment_of x0 y0 x1 y1) }
{
    let s = Segment {
        floor,
        x0,
        y0,
        x1,
        y1,
        columns,
        rows,
    };
    if columns <= 1 && rows <= 1 {
        return s.is_unit_unblocked();
    }
    s.is_two_cells_unblocked()
}

// Whether the vertex (x, y) is a pinch.
pub fn is_pinch(floor: FloorPlan<'_>, x: usize, y: usize) -> bool
    requires { (x ≤ floor.w) × (y ≤ floor.h) }
    ensures { result ≡ pinch (floor_on floor.entry) x y }
{
    pinches::pinch_at(floor, x, y)
}

// What is in the way from one vertex to another. Nothing is in the way from a vertex to itself.
#[tactic(auto, unfolding(crate::specs::Obstacle::span, crate::specs::Sight::segment))]
pub fn look(floor: FloorPlan<'_>, a: Vertex, b: Vertex) -> Option<Obstacle>
    requires { (a.0 < vertices floor.w floor.h) × (b.0 < vertices floor.w floor.h) }
    ensures { result ≡ obstacle (floor_on floor.entry) (segment floor.entry.w a.0 b.0) }
{
    if a.0 == b.0 {
        return None;
    }
    let x0 = floor::column_of(floor.w, a);
    let y0 = floor::row_of(floor.w, floor.h, a);
    let x1 = floor::column_of(floor.w, b);
    let y1 = floor::row_of(floor.w, floor.h, b);
    let columns = x0.abs_diff(x1);
    let rows = y0.abs_diff(y1);
    let s = Segment {
        floor,
        x0,
        y0,
        x1,
        y1,
        columns,
        rows,
    };
    s.obstacle()
}

// Whether two vertices see each other.
pub fn in_sight(floor: FloorPlan<'_>, a: Vertex, b: Vertex) -> bool
    requires { (a.0 < vertices floor.w floor.h) × (b.0 < vertices floor.w floor.h) }
    ensures { result ≡ sees (floor_on floor.entry) (segment floor.entry.w a.0 b.0) }
{
    look(floor, a, b).is_none()
}

// The sight question, for any numbers and any map: what is in the way from vertex a to vertex b, or the refusal.
#[tactic(auto, unfolding(crate::specs::Question::sight_answer))]
pub fn ask(w: usize, h: usize, map: &[u8], a: usize, b: usize) -> Result<Option<Obstacle>, Refusal>
    ensures { result ≡ sight_answer w h map.now a b }
{
    let floor = FloorPlan::new(w, h, map)?;
    floor::end_shape(w, h, a)?;
    floor::end_shape(w, h, b)?;
    Ok(look(floor, Vertex(a), Vertex(b)))
}
