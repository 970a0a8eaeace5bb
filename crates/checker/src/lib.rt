// The checker: it accepts exactly the true sheets, and has no memory to write in. `back` is the slice b of rule 5.1.
#![tactic(auto)]

mod nexts; // nexts.rt: the test of the next vertices
mod route; // route.rt: the test of the route
mod vertices; // vertices.rt: the tests of costs and counts
mod zeros; // zeros.rt: places that must be 0

ghost use Rattle.std.specs.Prelude.{◌≡◌, ◌<◌, ◌^◌};
ghost use Rattle.floor.specs.Plan.{floor_on};
ghost use Rattle.paths.specs.Local.{entry};
ghost use Rattle.paths.specs.Sheet.{sheet_in};
ghost use Rattle.grid.specs.Grid.{floor_graph};
ghost use Rattle.grid.specs.Known.{GoodJob};
ghost use Rattle.checker.specs.Answer.{sheet_sized, judged, check_answer, check_number};
ghost use Rattle.checker.specs.Tests.{route_test, no_route_test, CheckInput};

use floor::{FloorPlan, Refusal, Vertex};
use moves::Directions;
use paths::Sheet;

// The kind of a sheet that is true.
#[derive(Clone, Copy, Debug, PartialEq, Eq)]
pub enum SheetKind {
    Route,
    NoRoute,
}

// The number of an answer (rule 6.1).
pub fn check_number(answer: Result<SheetKind, Refusal>) -> u8
    ensures { result ≡ check_number answer }
{
    match answer {
        Ok(SheetKind::Route) => 0,
        Ok(SheetKind::NoRoute) => 7,
        Err(r) => u8::from(r),
    }
}

// The sheet is the true route sheet.
#[tactic(auto, unfolding(crate::specs::Tests::route_test))]
fn is_route(floor: FloorPlan<'_>, dirs: Directions, a: Vertex, b: Vertex, sheet: Sheet<'_>) -> bool
    requires { CheckInput floor.w floor.h floor.map.now dirs a.0 b.0 (sheet_in sheet) }
    ensures { (result ≡ route_test (floor_graph (floor_on floor.entry) dirs) a.0 b.0 (sheet_in sheet.entry))
        × (entry sheet.entry.f.now b.0 < 2 ^ 64) }
{
    // The total is read here so that it is known to fit 64 bits.
    let _total = sheet.f[b.0];
    sheet.d[b.0] != paths::UNREACHABLE
        && sheet.d[a.0] == 0
        && sheet.e[b.0] == 0
        && vertices::vertices_right(floor, dirs, true, a, b, sheet)
        && nexts::nexts_right(floor, dirs, b, sheet)
        && route::route_right(a, b, sheet)
}

// The sheet is the true no_route sheet.
#[tactic(auto, unfolding(crate::specs::Tests::no_route_test))]
fn is_no_route(
    floor: FloorPlan<'_>,
    dirs: Directions,
    a: Vertex,
    b: Vertex,
    sheet: Sheet<'_>,
) -> bool
    requires { CheckInput floor.w floor.h floor.map.now dirs a.0 b.0 (sheet_in sheet) }
    ensures { result ≡ no_route_test (floor_graph (floor_on floor.entry) dirs) a.0 b.0 (sheet_in sheet.entry) }
{
    sheet.d[b.0] == paths::UNREACHABLE
        && sheet.n == 0
        && sheet.d[a.0] == 0
        && vertices::vertices_right(floor, dirs, false, a, b, sheet)
}

// Refusal 6 does not apply: each slice of the sheet has v places.
#[tactic(auto, unfolding(crate::specs::Answer::sheet_sized))]
fn sheet_sized(v: usize, sheet: Sheet<'_>) -> bool
    ensures { result ≡ sheet_sized v (sheet_in sheet.entry) }
{
    sheet.d.len() == v
        && sheet.e.len() == v
        && sheet.f.len() == v
        && sheet.back.len() == v
        && sheet.route.len() == v
        && sheet.next.len() == v
}

// The answer to a job whose floor, neighbourhood and ends have a good shape.
fn judge(
    floor: FloorPlan<'_>,
    dirs: Directions,
    a: Vertex,
    b: Vertex,
    sheet: Sheet<'_>,
) -> Result<SheetKind, Refusal>
    requires { GoodJob floor.w floor.h floor.map.now dirs a.0 b.0 }
    ensures { result ≡ judged floor.entry.w floor.entry.h floor.entry.map.now a.0 b.0 (sheet_in sheet.entry) (Ok dirs) }
{
    if !sheet_sized(floor::vertex_count(floor.w, floor.h), sheet) {
        return Err(Refusal::SliceLength);
    }
    if is_route(floor, dirs, a, b, sheet) {
        return Ok(SheetKind::Route);
    }
    if is_no_route(floor, dirs, a, b, sheet) {
        return Ok(SheetKind::NoRoute);
    }
    Err(Refusal::FalseSheet)
}

// Checks a sheet that any planner filled, for the job from a to b on the floor of width w and height h with the
// neighbourhood of number nb. Any numbers may be handed in, and nothing is written.
// Kept: what may not change: the parameters of `check` but for the sheet.
#[tactic(auto, unfolding(crate::specs::Answer::check_answer))]
pub fn check(
    w: usize,
    h: usize,
    map: &[u8],
    nb: usize,
    a: usize,
    b: usize,
    sheet: Sheet<'_>,
) -> Result<SheetKind, Refusal>
    ensures { result ≡ check_answer w h map.now nb a b (sheet_in sheet.entry) }
{
    let dirs = grid::job_shape(w, h, map, nb, a, b)?;
    judge(FloorPlan { w, h, map }, dirs, Vertex(a), Vertex(b), sheet)
}
