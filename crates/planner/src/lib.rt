// The planner, in two operations: the costs from a start; then counts, next vertices and central route of a job.
//
//     fill_costs   the costs from a start, for every input
//     finish       a job finished from given costs, which are tested, for every input
//     finish_job   a job finished from true costs: answers 0, 7 and 8
#![tactic(auto)]

mod route; // route.rt: the next vertices, and the central route, which is the walk through them

ghost use Rattle.std.specs.Prelude.{◌≡◌, ◌≤◌};
ghost use Rattle.floor.specs.Plan.{floor_on};
ghost use Rattle.grid.specs.Grid.{floor_graph};
ghost use Rattle.planner.specs.Plan.{cost_slices_of, slices_of, FillsCosts, Finishes};
ghost use Rattle.planner.specs.Parts.{lent_in, left_in, lengths_good, Finishable, Finished};

use floor::{FloorPlan, Refusal, Vertex};
use moves::Directions;
use route::Numbers;

// The cost of the route, the number of cheapest routes and the number of its points: the answer of the second operation,
// where it is no refusal.
#[derive(Clone, Copy, PartialEq, Eq)]
pub struct Plan {
    pub cost: u32,
    pub total: u64,
    pub points: usize,
}

// The slices that the second operation writes: those of the sheet but d, where `back` is the slice b of rule 5.1, and its
// working slice.
#[derive(Drop)]
pub struct Slices<'a> {
    pub e: &'a mut [u32],
    pub f: &'a mut [u64],
    pub back: &'a mut [u64],
    pub route: &'a mut [u16],
    pub next: &'a mut [u16],
    pub work: &'a mut [u32],
}

// Whether slices of these lengths have the places that a floor of v vertices needs; if not, refusal 6 applies.
#[tactic(auto, unfolding(crate::specs::Parts::lengths_good))]
fn lengths_good(
    v: usize,
    d: usize,
    e: usize,
    f: usize,
    back: usize,
    route: usize,
    next: usize,
    work: usize,
) -> bool
    requires { v ≤ 16384 }
    ensures { result ≡ lengths_good v d e f back route next work }
{
    d == v && e == v && f == v && back == v && route == v && next == v && work == 4 * v
}

// Finishes a job of good shape from the true costs d from a: answers 0, 7 or 8, and leaves the other slices as rule 6.4
// says. It does not read what they held before. Where a walk joins the ends it fills e, and then counts, route and next
// vertices; where the total does not fit these stay 0.
pub fn finish_job(
    floor: FloorPlan<'_>,
    dirs: Directions,
    a: Vertex,
    b: Vertex,
    d: &[u32],
    slices: Slices<'_>,
) -> Result<Plan, Refusal>
    requires { Finishable floor.w floor.h floor.map.now dirs a.0 b.0 d.now (lent_in slices) }
    ensures { Finished (floor_graph (floor_on floor.entry) dirs) a.0 b.0 result (left_in slices.exit) }
{
    let Slices {
        e,
        f,
        back,
        route,
        next,
        work,
    } = slices;
    workspace::store_masks(floor, dirs, work);
    f.fill(0);
    back.fill(0);
    route.fill(0);
    next.fill(0);
    let start = a.0;
    let goal = b.0;
    if d[goal] == paths::UNREACHABLE {
        e.fill(0);
        work.fill(0);
        return Err(Refusal::NoRoute);
    }
    let n = distances::costs_over_masks(floor, dirs, b, e, work);
    let shifts = offsets::shifts_of(floor.w, dirs);
    if !counts::fill_counts(dirs, &shifts, start, goal, n, d, e, work, f, back) {
        work.fill(0);
        return Err(Refusal::TooMany);
    }
    let numbers = Numbers {
        dirs,
        shifts: &shifts,
        b: goal,
        d,
        e,
        f,
        back,
        work,
    };
    numbers.fill_next(next);
    work.fill(0);
    let points = route::write_route(start, goal, next, route);
    Ok(Plan {
        cost: d[goal],
        total: f[goal],
        points,
    })
}

// The first operation: fills d with the costs from a. For every input it gives the answer of rule 7.2, and leaves both
// lent slices as rule 6.4 says: a refusal changes nothing.
//
// Lent are d, of V places, and a working slice of 4 * V.
#[tactic(auto, unfolding(crate::specs::Plan::costs_answer, crate::specs::Plan::costs_left, crate::specs::Plan::costs_sized))]
pub fn fill_costs(
    w: usize,
    h: usize,
    map: &[u8],
    nb: usize,
    a: usize,
    d: &mut [u32],
    work: &mut [u32],
) -> Result<(), Refusal>
    ensures { FillsCosts w h map.now nb a
        (cost_slices_of d.old work.old) result (cost_slices_of d.new work.new) }
{
    let dirs = grid::job_shape(w, h, map, nb, a, a)?;
    let v = floor::vertex_count(w, h);
    if d.len() != v || work.len() != 4 * v {
        return Err(Refusal::SliceLength);
    }
    distances::costs_from(FloorPlan { w, h, map }, dirs, Vertex(a), d, work);
    Ok(())
}

// The second operation: finishes the job from a to b from d, which it only reads. For every input it gives the answer
// of rules 7.3 to 7.5, which is 9 where d is not the costs from a, and leaves every lent slice as rule 6.4 says:
// answers 1 to 6, 9 and 11 change nothing.
//
// Lent are the sheet's slices d, e, f, back (b of rule 5.1), route and next, of V places each, and a working slice of
// 4 * V.
// Kept: what may not change, the clauses of `finish` over its slices one by one.
#[tactic(auto, unfolding(crate::specs::Plan::finish_answer, crate::specs::Plan::finish_left))]
pub fn finish(
    w: usize,
    h: usize,
    map: &[u8],
    nb: usize,
    a: usize,
    b: usize,
    d: &[u32],
    e: &mut [u32],
    f: &mut [u64],
    back: &mut [u64],
    route: &mut [u16],
    next: &mut [u16],
    work: &mut [u32],
) -> Result<Plan, Refusal>
    ensures { Finishes w h map.now nb a b d.now
        (slices_of e.old f.old back.old route.old
        next.old work.old) result
        (slices_of e.new f.new back.new route.new
        next.new work.new) }
{
    let dirs = grid::job_shape(w, h, map, nb, a, b)?;
    let floor = FloorPlan { w, h, map };
    if !lengths_good(
        floor::vertex_count(w, h),
        d.len(),
        e.len(),
        f.len(),
        back.len(),
        route.len(),
        next.len(),
        work.len(),
    ) {
        return Err(Refusal::SliceLength);
    }
    if !given_costs::costs_true(floor, dirs, Vertex(a), d) {
        return Err(Refusal::FalseSheet);
    }
    finish_job(
        floor,
        dirs,
        Vertex(a),
        Vertex(b),
        d,
        Slices {
            e,
            f,
            back,
            route,
            next,
            work,
        },
    )
}
