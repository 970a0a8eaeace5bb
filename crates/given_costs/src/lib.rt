// Costs that a caller hands in, tested by the local law: each cost against those of its neighbours, in one pass over
// the floor, with nothing to write in.
#![tactic(auto)]

ghost use Rattle.std.specs.Prelude.{◌≡◌, suc, ◌≤◌, length};
ghost use Rattle.floor.specs.Floor.{vertices};
ghost use Rattle.floor.specs.Plan.{floor_on};
ghost use Rattle.masks.specs.Masks.{LeavingRow};
ghost use Rattle.offsets.specs.Classes.{Classes};
ghost use Rattle.paths.specs.Local.{entry};
ghost use Rattle.grid.specs.Grid.{floor_graph};
ghost use Rattle.grid.specs.Leaving.{leaving_graph};
ghost use Rattle.grid.specs.Known.{GoodJob};
ghost use Rattle.neighbours.specs.Reading.{mask_graph, Readable};
ghost use Rattle.neighbours.specs.Least.{right_cost_in};
ghost use Rattle.given_costs.specs.Given.{costs_true};
ghost use Rattle.given_costs.specs.Tests.{row_test};

use floor::{FloorPlan, Vertex};
use moves::Directions;
use offsets::Class;

// The cost of v from a is right, as far as v and its neighbours can tell. The directions are for the contract only.
fn vertex_right(
    dirs: Directions,
    shifts: &[usize],
    classes: [Class; offsets::CLASSES],
    mask: u32,
    a: usize,
    d: &[u32],
    v: usize,
) -> bool
    requires { Readable (length d.now) dirs shifts.now mask v × Classes dirs classes }
    ensures { result ≡ right_cost_in (mask_graph (length d.now) dirs shifts.now mask) a
        (entry d.now) v }
{
    neighbours::cost_right(shifts, classes, mask, a, d, v)
}

// The costs of the vertices of row y are right, each by the moves that leave it, whose masks are `leaving`. The map is
// for the contract only.
fn row_right(
    floor: FloorPlan<'_>,
    dirs: Directions,
    a: usize,
    d: &[u32],
    leaving: [u32; 128],
    y: usize,
) -> bool
    requires { GoodJob floor.w floor.h floor.map.now dirs a a × (length d.now ≡ vertices floor.w floor.h)
        × (y ≤ floor.h) × LeavingRow (floor_on floor) dirs y (suc floor.w) leaving }
    ensures { result ≡ row_test (leaving_graph (floor_on floor.entry) dirs) a d.now floor.entry.w y }
{
    let shifts = offsets::shifts_of(floor.w, dirs);
    let classes = offsets::classes_of(dirs);
    neighbours::row_passes(
        floor.w,
        y,
        leaving,
        |v, mask| vertex_right(dirs, &shifts, classes, mask, a, d, v),
    )
}

// Whether d holds the true costs from a: 0 at a, and every cost right by its neighbours. It stops at the first row with
// a false cost. A move to a pinch is read as open, as the checker does. The windows of a line are read once, and kept
// for the rows above and below. It is not inlined, so that its lines of masks have left the stack before the counts are
// filled.
#[inline(never)]
pub fn costs_true(floor: FloorPlan<'_>, dirs: Directions, a: Vertex, d: &[u32]) -> bool
    requires { GoodJob floor.w floor.h floor.map.now dirs a.0 a.0 × (length d.now ≡ vertices floor.w floor.h) }
    ensures { result ≡ costs_true (floor_graph (floor_on floor.entry) dirs) a.0 d.now }
{
    if d[a.0] != 0 {
        return false;
    }
    let windows = masks::window_masks(dirs);
    let mut above = masks::window_row(floor, 0, windows);
    let mut here = above;
    for y in 0..floor.h + 1 {
        let below = masks::window_row(floor, y + 1, windows);
        let leaving = masks::leaving_between(floor, dirs, y, windows, above, here, below);
        if !row_right(floor, dirs, a.0, d, leaving, y) {
            return false;
        }
        above = here;
        here = below;
    }
    true
}
