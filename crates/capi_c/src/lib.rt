// The library for C: each function of include/lurfanzi.h, which calls the function of its name in the crate `capi` under
// the same clauses.
#![tactic(auto)]

ghost use Rattle.std.specs.Prelude.{◌≡◌};
ghost use Rattle.sight.specs.Question.{sight_answer, sight_number};
ghost use Rattle.paths.specs.Sheet.{sheet_of};
ghost use Rattle.planner.specs.Plan.{cost_slices_of, slices_of};
ghost use Rattle.checker.specs.Answer.{check_answer, check_number};
ghost use Rattle.stored_closures.specs.Stored.{rectangle_of};
ghost use Rattle.replay.specs.Replay.{replay_slices_of};
ghost use Rattle.capi.specs.Results.{obstacle_result};
ghost use Rattle.capi.specs.Results.{FillsTo, FinishesTo, ThinsTo, PostsTo, StrikesTo, WritesTo, ReplaysTo};

use capi::{ObstacleResult, PlanResult, PostResult, ReplayResult, ThinResult};

mod change_reports; // change_reports.rt
mod fewest_legs; // fewest_legs.rt
mod mend; // mend.rt
mod writing; // writing.rt

// The sight question.
#[unsafe(no_mangle)]
pub extern "C" fn lurfanzi_sight(width: u32, height: u32, map: &[u8], a: u32, b: u32) -> u8
    ensures { result ≡ sight_number (sight_answer width height map.now a b) }
{
    capi::lurfanzi_sight(width, height, map, a, b)
}

// What is in the way.
#[unsafe(no_mangle)]
pub extern "C" fn lurfanzi_obstacle(
    width: u32,
    height: u32,
    map: &[u8],
    a: u32,
    b: u32,
) -> ObstacleResult
    ensures { result ≡ obstacle_result (sight_answer width height map.now a b) }
{
    capi::lurfanzi_obstacle(width, height, map, a, b)
}

// The planner's first operation: the costs from a start.
#[unsafe(no_mangle)]
pub extern "C" fn lurfanzi_costs(
    width: u32,
    height: u32,
    map: &[u8],
    neighbourhood: u32,
    a: u32,
    d: &mut [u32],
    work: &mut [u32],
) -> u8
    ensures { FillsTo width height map.now neighbourhood a
        (cost_slices_of d.old work.old) result (cost_slices_of d.new work.new) }
{
    capi::lurfanzi_costs(width, height, map, neighbourhood, a, d, work)
}

// The planner's second operation: the rest of a job from given costs.
#[unsafe(no_mangle)]
pub extern "C" fn lurfanzi_finish(
    width: u32,
    height: u32,
    map: &[u8],
    neighbourhood: u32,
    a: u32,
    b: u32,
    d: &[u32],
    e: &mut [u32],
    f: &mut [u64],
    back: &mut [u64],
    route: &mut [u16],
    next: &mut [u16],
    work: &mut [u32],
) -> PlanResult
    ensures { FinishesTo width height map.now neighbourhood a b d.now
        (slices_of e.old f.old back.old route.old
        next.old work.old) result
        (slices_of e.new f.new back.new route.new
        next.new work.new) }
{
    capi::lurfanzi_finish(
        width,
        height,
        map,
        neighbourhood,
        a,
        b,
        d,
        e,
        f,
        back,
        route,
        next,
        work,
    )
}

// The checker.
#[unsafe(no_mangle)]
pub extern "C" fn lurfanzi_check(
    width: u32,
    height: u32,
    map: &[u8],
    neighbourhood: u32,
    a: u32,
    b: u32,
    d: &[u32],
    e: &[u32],
    f: &[u64],
    back: &[u64],
    route: &[u16],
    next: &[u16],
    n: usize,
) -> u8
    ensures { result ≡ check_number (check_answer width height map.now neighbourhood a b
        (sheet_of d.now e.now f.now back.now route.now
        next.now n)) }
{
    capi::lurfanzi_check(
        width,
        height,
        map,
        neighbourhood,
        a,
        b,
        d,
        e,
        f,
        back,
        route,
        next,
        n,
    )
}

// The thinning.
#[unsafe(no_mangle)]
pub extern "C" fn lurfanzi_thin(
    width: u32,
    height: u32,
    map: &[u8],
    list: &[u16],
    out: &mut [u16],
    n: usize,
) -> ThinResult
    ensures { ThinsTo width height map.now list.now out.old n result out.new }
{
    capi::lurfanzi_thin(width, height, map, list, out, n)
}

// Posting a closure.
#[unsafe(no_mangle)]
pub extern "C" fn lurfanzi_post(
    width: u32,
    height: u32,
    slots: &mut [u32; 64],
    column: u32,
    row: u32,
    columns: u32,
    rows: u32,
) -> PostResult
    ensures { PostsTo width height slots.old (rectangle_of column row columns rows) result
        slots.new }
{
    capi::lurfanzi_post(width, height, slots, column, row, columns, rows)
}

// Striking a closure.
#[unsafe(no_mangle)]
pub extern "C" fn lurfanzi_strike(width: u32, height: u32, slots: &mut [u32; 64], slot: u32) -> u8
    ensures { StrikesTo width height slots.old slot result slots.new }
{
    capi::lurfanzi_strike(width, height, slots, slot)
}

// The working map.
#[unsafe(no_mangle)]
pub extern "C" fn lurfanzi_working_map(
    width: u32,
    height: u32,
    slots: &[u32; 64],
    base: &[u8],
    map: &mut [u8],
) -> u8
    ensures { WritesTo width height slots.now base.now map.old result map.new }
{
    capi::lurfanzi_working_map(width, height, slots, base, map)
}

// The replay of a log.
#[unsafe(no_mangle)]
pub extern "C" fn lurfanzi_replay(
    width: u32,
    height: u32,
    map: &[u8],
    neighbourhood: u32,
    log: &[u8],
    costs: &mut [u32],
    work: &mut [u32],
) -> ReplayResult
    ensures { ReplaysTo width height map.now neighbourhood log.now
        (replay_slices_of costs.old work.old) result
        (replay_slices_of costs.new work.new) }
{
    capi::lurfanzi_replay(width, height, map, neighbourhood, log, costs, work)
}
