// A list of vertices on a floor. It stands in a file of its own, since the clauses of its methods speak of it.
ghost use Rattle.thinning.specs.Known.{VertexList};

use floor::FloorPlan;

// A floor, and a slice of numbers of which the first n are vertices of it.
// Kept: what may not change: `joined_list` and `kept_positions` speak of a whole slice and n.
#[derive(Clone, Copy)]
pub struct PointList<'a> {
    pub floor: FloorPlan<'a>,
    pub list: &'a [u16],
    pub n: usize,
    ghost listed: { VertexList floor.w floor.h list.now n },
}
