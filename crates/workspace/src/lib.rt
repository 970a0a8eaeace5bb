// The planner's working slice of 4 * V places, for V vertices: from place 0 on the vertices that have a cost, in the order
// in which they were settled, V + 1 places at most; from place 2 * V on the mask of the open moves of each vertex. These
// are regions of one slice, and this crate alone knows where they are.
#![tactic(auto)]

ghost use Rattle.std.specs.Prelude.{◌≡◌, ◌*◌, ◌<◌, ◌≤◌, length, set};
ghost use Rattle.floor.specs.Floor.{vertices};
ghost use Rattle.floor.specs.Plan.{floor_on};
ghost use Rattle.moves.specs.Table.{Listed};
ghost use Rattle.paths.specs.Local.{entry};
ghost use Rattle.workspace.specs.Regions.{mask_at, MasksFilled};

use floor::FloorPlan;
use moves::Directions;

// The vertex at place i of the order.
pub fn settled_at(work: &[u32], i: usize) -> usize
    requires { i < length work.now }
    ensures { result ≡ entry work.now i }
{
    work[i] as usize
}

// Copies the vertex at place i of the order to place k, and answers it.
pub fn copy_settled(work: &mut [u32], i: usize, k: usize) -> usize
    requires { (i < length work.old) × (k < length work.old) }
    ensures { (result ≡ entry work.old i) × (work.new ≡ set work.old k (entry work.old i)) }
{
    let u = work[i];
    work[k] = u;
    u as usize
}

// The mask of vertex u, where there are `count` vertices.
pub fn mask_at(work: &[u32], count: usize, u: usize) -> u32
    requires { (count ≤ 16384) × (length work.now ≡ 4 * count) × (u < count) }
    ensures { result ≡ mask_at count work.now u }
{
    work[2 * count + u]
}

// Stores the mask of each vertex: worked out once for a floor, and read by every pass.
pub fn store_masks(floor: FloorPlan<'_>, dirs: Directions, work: &mut [u32])
    requires { Listed dirs × (length work.old ≡ 4 * vertices floor.w floor.h) }
    ensures { MasksFilled (floor_on floor.entry) dirs work.old work.new }
{
    let count = floor::vertex_count(floor.w, floor.h);
    let first = 2 * count;
    let past = 3 * count;
    masks::fill_masks(floor, dirs, &mut work[first..past]);
}
