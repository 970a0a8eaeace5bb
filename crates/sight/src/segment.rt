// A segment between two vertices. It stands in a file of its own, since the clauses of its methods speak of it.
ghost use Rattle.sight.specs.Travel.{Ends, Apart};

use floor::FloorPlan;

// The segment from the vertex (x0, y0) to the vertex (x1, y1) of a floor, `columns` and `rows` apart.
#[derive(Clone, Copy)]
pub struct Segment<'a> {
    pub floor: FloorPlan<'a>,
    pub x0: usize,
    pub y0: usize,
    pub x1: usize,
    pub y1: usize,
    pub columns: usize,
    pub rows: usize,
    ghost ends: { Ends floor.w floor.h x0 y0 x1 y1 },
    ghost apart: { Apart x0 y0 x1 y1 columns rows },
}
