// The C interface: each operation on plain numbers and slices, under the contract of the operation.
// include/lurfanzi.h declares these functions, and the crate `capi_c` exports them. Sides, neighbourhood, ends, slots and
// the numbers of a rectangle are 32 bits wide, so that no number is truncated on its way in.
// Kept: the C interface: numbers for answers, and 0 for a value that there is not.
#![tactic(auto)]

ghost use Rattle.std.specs.Prelude.{◌≡◌};
ghost use Rattle.sight.specs.Question.{sight_answer, sight_number, obstacle_number, obstacle_place};
ghost use Rattle.paths.specs.Sheet.{sheet_of};
ghost use Rattle.planner.specs.Plan.{cost_slices_of, slices_of};
ghost use Rattle.checker.specs.Answer.{check_answer, check_number};
ghost use Rattle.stored_closures.specs.Stored.{rectangle_of};
ghost use Rattle.replay.specs.Replay.{replay_slices_of};
ghost use Rattle.capi.specs.Results.{obstacle_result};
ghost use Rattle.capi.specs.Results.{FillsTo, FinishesTo, ThinsTo, PostsTo, StrikesTo, WritesTo, ReplaysTo};

use paths::Sheet;
use sight::Obstacle;

pub mod change_reports; // change_reports.rt: what changed between two floors
pub mod fewest_legs; // fewest_legs.rt: fewest stops
pub mod mend; // mend.rt: mending a damaged sheet
pub mod writing; // writing.rt: the program's input written

// What is in the way, and its place: the number of a cell or vertex, 0 where nothing is in the way.
#[repr(C)]
#[derive(Clone, Copy)]
pub struct ObstacleResult {
    pub place: u32,
    pub answer: u8,
}

// The answer of the planner's second operation with its values, all 0 at a refusal.
#[repr(C)]
#[derive(Clone, Copy)]
pub struct PlanResult {
    pub total: u64,
    pub points: usize,
    pub cost: u32,
    pub answer: u8,
}

// The thinning's answer with how many positions are kept, 0 at a refusal.
#[repr(C)]
#[derive(Clone, Copy)]
pub struct ThinResult {
    pub kept: usize,
    pub answer: u8,
}

// Post's answer with the slot, 0 at a refusal.
#[repr(C)]
#[derive(Clone, Copy)]
pub struct PostResult {
    pub slot: u32,
    pub answer: u8,
}

// The replay's answer with its values, all 0 at every answer but 0 and 17. `unfollowed` and `bad` are 0 where there is
// no such record.
#[repr(C)]
#[derive(Clone, Copy)]
pub struct ReplayResult {
    pub read: usize,
    pub unfollowed: usize,
    pub bad: usize,
    pub cost: u32,
    pub cheapest: u8,
    pub answer: u8,
}

// The sight question.
pub fn lurfanzi_sight(width: u32, height: u32, map: &[u8], a: u32, b: u32) -> u8
    ensures { result ≡ sight_number (sight_answer width height map.now a b) }
{
    let s = sight::ask(width as usize, height as usize, map, a as usize, b as usize);
    sight::sight_number(s)
}

// What is in the way, as a number.
fn obstacle_number(o: Option<Obstacle>) -> u8
    ensures { result ≡ obstacle_number o }
{
    match o {
        None => 0,
        Some(Obstacle::Cell(_)) => 101,
        Some(Obstacle::Step(_)) => 102,
        Some(Obstacle::Pinch(_)) => 103,
    }
}

// The place of what is in the way: the number of the cell, of the vertex where the shut step begins, or of the pinch; 0
// where the way is clear.
fn obstacle_place(o: Option<Obstacle>) -> usize
    ensures { result ≡ obstacle_place o }
{
    match o {
        None => 0,
        Some(Obstacle::Cell(c)) => c.0,
        Some(Obstacle::Step(v)) => v.0,
        Some(Obstacle::Pinch(v)) => v.0,
    }
}

// What is in the way.
pub fn lurfanzi_obstacle(width: u32, height: u32, map: &[u8], a: u32, b: u32) -> ObstacleResult
    ensures { result ≡ obstacle_result (sight_answer width height map.now a b) }
{
    let found = sight::ask(width as usize, height as usize, map, a as usize, b as usize);
    match found {
        Ok(o) => ObstacleResult {
            place: obstacle_place(o) as u32,
            answer: obstacle_number(o),
        },
        Err(r) => ObstacleResult {
            place: 0,
            answer: u8::from(r),
        },
    }
}

// The planner's first operation: the costs from a start.
pub fn lurfanzi_costs(
    width: u32,
    height: u32,
    map: &[u8],
    neighbourhood: u32,
    a: u32,
    d: &mut [u32],
    work: &mut [u32],
) -> u8
    ensures { FillsTo width height map.now neighbourhood a
        (cost_slices_of d.old work.old) result (cost_slices_of d.new work.new) }
{
    let c = planner::fill_costs(
        width as usize,
        height as usize,
        map,
        neighbourhood as usize,
        a as usize,
        d,
        work,
    );
    floor::answer_number(c)
}

// The planner's second operation: the rest of a job from given costs.
pub fn lurfanzi_finish(
    width: u32,
    height: u32,
    map: &[u8],
    neighbourhood: u32,
    a: u32,
    b: u32,
    d: &[u32],
    e: &mut [u32],
    f: &mut [u64],
    back: &mut [u64],
    route: &mut [u16],
    next: &mut [u16],
    work: &mut [u32],
) -> PlanResult
    ensures { FinishesTo width height map.now neighbourhood a b d.now
        (slices_of e.old f.old back.old route.old
        next.old work.old) result
        (slices_of e.new f.new back.new route.new
        next.new work.new) }
{
    let p = planner::finish(
        width as usize,
        height as usize,
        map,
        neighbourhood as usize,
        a as usize,
        b as usize,
        d,
        e,
        f,
        back,
        route,
        next,
        work,
    );
    PlanResult {
        total: p.map_or(0, |plan| plan.total),
        points: p.map_or(0, |plan| plan.points),
        cost: p.map_or(0, |plan| plan.cost),
        answer: floor::answer_number(p),
    }
}

// The checker.
pub fn lurfanzi_check(
    width: u32,
    height: u32,
    map: &[u8],
    neighbourhood: u32,
    a: u32,
    b: u32,
    d: &[u32],
    e: &[u32],
    f: &[u64],
    back: &[u64],
    route: &[u16],
    next: &[u16],
    n: usize,
) -> u8
    ensures { result ≡ check_number (check_answer width height map.now neighbourhood a b
        (sheet_of d.now e.now f.now back.now route.now
        next.now n)) }
{
    checker::check_number(checker::check(
        width as usize,
        height as usize,
        map,
        neighbourhood as usize,
        a as usize,
        b as usize,
        Sheet {
            d,
            e,
            f,
            back,
            route,
            next,
            n,
        },
    ))
}

// The thinning.
pub fn lurfanzi_thin(
    width: u32,
    height: u32,
    map: &[u8],
    list: &[u16],
    out: &mut [u16],
    n: usize,
) -> ThinResult
    ensures { ThinsTo width height map.now list.now out.old n result out.new }
{
    let t = thinning::thin(width as usize, height as usize, map, list, out, n);
    ThinResult {
        kept: t.unwrap_or(0),
        answer: floor::answer_number(t),
    }
}

// Posting a closure.
pub fn lurfanzi_post(
    width: u32,
    height: u32,
    slots: &mut [u32; 64],
    column: u32,
    row: u32,
    columns: u32,
    rows: u32,
) -> PostResult
    ensures { PostsTo width height slots.old (rectangle_of column row columns rows) result
        slots.new }
{
    let posted = stored_closures::post(
        width as usize,
        height as usize,
        slots,
        column,
        row,
        columns,
        rows,
    );
    PostResult {
        slot: posted.unwrap_or(0) as u32,
        answer: floor::answer_number(posted),
    }
}

// Striking a closure.
pub fn lurfanzi_strike(width: u32, height: u32, slots: &mut [u32; 64], slot: u32) -> u8
    ensures { StrikesTo width height slots.old slot result slots.new }
{
    let s = stored_closures::strike(width as usize, height as usize, slots, slot as usize);
    floor::answer_number(s)
}

// The working map.
pub fn lurfanzi_working_map(
    width: u32,
    height: u32,
    slots: &[u32; 64],
    base: &[u8],
    map: &mut [u8],
) -> u8
    ensures { WritesTo width height slots.now base.now map.old result map.new }
{
    let s = stored_closures::working_map(width as usize, height as usize, slots, base, map);
    floor::answer_number(s)
}

// The replay of a log.
pub fn lurfanzi_replay(
    width: u32,
    height: u32,
    map: &[u8],
    neighbourhood: u32,
    log: &[u8],
    costs: &mut [u32],
    work: &mut [u32],
) -> ReplayResult
    ensures { ReplaysTo width height map.now neighbourhood log.now
        (replay_slices_of costs.old work.old) result
        (replay_slices_of costs.new work.new) }
{
    let r = replay::replay(
        width as usize,
        height as usize,
        map,
        neighbourhood as usize,
        log,
        costs,
        work,
    );
    ReplayResult {
        read: r.map_or(0, |d| d.read),
        unfollowed: r.map_or(0, |d| d.unfollowed.unwrap_or(0)),
        bad: r.map_or(0, |d| d.bad.unwrap_or(0)),
        cost: r.map_or(0, |d| d.cost),
        cheapest: u8::from(r.map_or(false, |d| d.cheapest)),
        answer: replay::replay_number(r),
    }
}
