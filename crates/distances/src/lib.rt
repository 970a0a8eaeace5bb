// The costs from one vertex to every vertex of a floor: d of rule 4.3, or e from the other end.
#![tactic(auto)]

ghost use Rattle.floor.specs.Plan.{floor_on};
ghost use Rattle.grid.specs.Grid.{floor_graph};
ghost use Rattle.workspace.specs.Regions.{MasksIn};
ghost use Rattle.distances.specs.Costs.{Costing, OrderedCosts, FilledCosts};

use floor::{FloorPlan, Vertex};
use moves::Directions;

mod dijkstra; // dijkstra.rt: Dijkstra's algorithm with one queue for each edge cost

// Fills d with the costs from a, where `work` has the masks; leaves the order beside them, and answers its length. Of the
// plan, height and map are for the contract only.
pub fn costs_over_masks(
    floor: FloorPlan<'_>,
    dirs: Directions,
    a: Vertex,
    d: &mut [u32],
    work: &mut [u32],
) -> usize
    requires costing { Costing floor.w floor.h floor.map.now dirs a.0 d.old work.old }
    requires masks_in { MasksIn (floor_on floor) dirs work.old }
    ensures { OrderedCosts (floor_on floor.entry) dirs a.0 result d.new work.new }
{
    let shifts = offsets::shifts_of(floor.w, dirs);
    let classes = offsets::classes_of(dirs);
    dijkstra::settle(&shifts, classes, a.0, d, work)
}

// Fills d with the costs from a, and `work` with 0. It relies on nothing that stands in the two slices.
pub fn costs_from(
    floor: FloorPlan<'_>,
    dirs: Directions,
    a: Vertex,
    d: &mut [u32],
    work: &mut [u32],
)
    requires { Costing floor.w floor.h floor.map.now dirs a.0 d.old work.old }
    ensures { FilledCosts (floor_graph (floor_on floor.entry) dirs) a.0 d.new work.new }
{
    workspace::store_masks(floor, dirs, work);
    costs_over_masks(floor, dirs, a, d, work);
    work.fill(0);
}
