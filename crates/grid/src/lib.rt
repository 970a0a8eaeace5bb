// A floor with a neighbourhood as a graph, and the shape of a job. The graph is defined in specs/Grid.antt; that it is
// lawful is proved in proofs/Lawful.antt.
#![tactic(auto)]

ghost use Rattle.std.specs.Prelude.{◌≡◌, ◌<◌};
ghost use Rattle.floor.specs.Floor.{vertices};
ghost use Rattle.floor.specs.Plan.{floor_on};
ghost use Rattle.grid.specs.Grid.{pinch_shape, ends_shape, job_shape};
ghost use Rattle.grid.specs.Known.{dirs_shape};

use floor::{FloorPlan, Refusal, Vertex};
use moves::Directions;

// Refusal 11 of one end: it is a pinch.
#[tactic(auto, unfolding(crate::specs::Grid::pinch_shape))]
fn pinch_shape(floor: FloorPlan<'_>, v: Vertex) -> Result<(), Refusal>
    requires { v.0 < vertices floor.w floor.h }
    ensures { result ≡ pinch_shape (floor_on floor.entry) v.0 }
{
    if sight::is_pinch(
        floor,
        floor::column_of(floor.w, v),
        floor::row_of(floor.w, floor.h, v),
    ) {
        return Err(Refusal::Pinched);
    }
    Ok(())
}

// The refusals of both ends: 5 of either, then 11 of either.
#[tactic(auto, unfolding(crate::specs::Grid::ends_shape))]
fn ends_shape(floor: FloorPlan<'_>, a: usize, b: usize) -> Result<(), Refusal>
    ensures { result ≡ ends_shape floor.entry.w floor.entry.h floor.entry.map.now a b }
{
    floor::end_shape(floor.w, floor.h, a)?;
    floor::end_shape(floor.w, floor.h, b)?;
    pinch_shape(floor, Vertex(a))?;
    pinch_shape(floor, Vertex(b))
}

// Refusals 1 to 4: those of the floor, then of the neighbourhood. The answer is the directions of the neighbourhood.
// Kept: what may not change: the parameters of `dirs_shape` and `job_shape`, of which no plan is made before the tests.
#[tactic(auto, unfolding(crate::specs::Known::dirs_shape))]
pub fn dirs_shape(w: usize, h: usize, map: &[u8], nb: usize) -> Result<Directions, Refusal>
    ensures { result ≡ dirs_shape w h map.now nb }
{
    floor::floor_shape(w, h, map)?;
    moves::directions_of(nb).ok_or(Refusal::Neighbourhood)
}

// Refusals 1 to 5, then 11, of a job: those of the floor, of the neighbourhood, then of the two ends. The answer is the
// directions of the neighbourhood.
#[tactic(auto, unfolding(crate::specs::Known::dirs_shape, crate::specs::Grid::job_shape))]
pub fn job_shape(
    w: usize,
    h: usize,
    map: &[u8],
    nb: usize,
    a: usize,
    b: usize,
) -> Result<Directions, Refusal>
    ensures { result ≡ job_shape w h map.now nb a b }
{
    let dirs = dirs_shape(w, h, map, nb)?;
    ends_shape(FloorPlan { w, h, map }, a, b)?;
    Ok(dirs)
}
