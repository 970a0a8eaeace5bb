// A joined list with a number for each of its positions. It stands in a file of its own, since the clauses of its
// methods speak of it.
ghost use Rattle.std.specs.Prelude.{◌≤◌, length};
ghost use Rattle.legs.specs.Known.{JoinedOn};

use thinning::PointList;

// A joined list, and a slice with a number for each of its positions: where the numbers are right, the fewest legs from
// there to the end.
#[derive(Clone, Copy)]
pub struct LegList<'a> {
    pub points: PointList<'a>,
    pub legs: &'a [u16],
    ghost joined: { JoinedOn points.floor.w points.floor.h points.floor.map.now points.list.now points.n },
    ghost numbered: { points.n ≤ length legs.now },
}
