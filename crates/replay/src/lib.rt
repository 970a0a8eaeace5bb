// The replay of a cart's log: its records one by one, the cost driven, the faults, and whether the log is cheapest.
#![tactic(auto)]

ghost use Rattle.std.specs.Prelude.{◌≡◌, ◌*◌, ◌<◌, ◌≤◌, length};
ghost use Rattle.floor.specs.Floor.{vertices};
ghost use Rattle.floor.specs.Plan.{floor_on};
ghost use Rattle.moves.specs.Steps.{far_end_at};
ghost use Rattle.moves.specs.Table.{Short, OnFloor};
ghost use Rattle.grid.specs.Grid.{floor_graph};
ghost use Rattle.logs.specs.Log.{log_of};
ghost use Rattle.replay.specs.Replay.{
  goes_to,
  move_cost,
  follow_cost,
  pinch_at,
  replay_slices_of,
  log_shape,
  replay_shape,
  replay_number,
  Replays,
};
ghost use Rattle.replay.specs.Known.{Drivable, before, first_with, after_stop, Taking, LogRead, sound_ends, answer_in};
ghost use Rattle.replay.specs.Known.{Replayable, Judged, ReplaysLog};

use floor::{FloorPlan, Refusal, Vertex};
use logs::LogCursor;
use moves::{Directions, Move};

// What is answered of a log: how many records were read, the cost driven, the number of the first record that cannot
// follow, that of the bad record that ended the reading, and whether the log is cheapest.
#[derive(Clone, Copy)]
pub struct Replayed {
    pub read: usize,
    pub cost: u32,
    pub unfollowed: Option<usize>,
    pub bad: Option<usize>,
    pub cheapest: bool,
}

// What was driven by the records read so far: how many, their cost, the number of the first that cannot follow, and the
// vertices of the first and the last of them.
#[derive(Clone, Copy)]
struct Progress {
    read: usize,
    cost: u32,
    unfollowed: Option<usize>,
    ends: Option<(Vertex, Vertex)>,
}

// What was driven by the whole log, and whether a bad record ended the reading.
#[derive(Clone, Copy)]
struct Reading {
    drive: Progress,
    broken: bool,
}

// The number of an answer (rule 6.1).
pub fn replay_number(r: Result<Replayed, Refusal>) -> u8
    ensures { result ≡ replay_number r }
{
    match r {
        Ok(d) if d.bad.is_some() => u8::from(Refusal::BadLogRecord),
        _ => floor::answer_number(r),
    }
}

// Whether the move m leads from (x, y) to the vertex v.
fn leads_to(w: usize, h: usize, x: usize, y: usize, m: Move, v: Vertex) -> bool
    requires { OnFloor w h x y × Short m }
    ensures { result ≡ goes_to (far_end_at w h m x y) v.0 }
{
    moves::step_from(w, h, x, y, m.dx, m.dy) == Some(v)
}

// The cost of the open move from u to v, if there is one. Where the two see each other, it is the move that leads from
// u to v.
fn move_cost(floor: FloorPlan<'_>, dirs: Directions, u: Vertex, v: Vertex) -> Option<u32>
    requires { Drivable floor.w floor.h floor.map.now dirs × (u.0 < vertices floor.w floor.h)
        × (v.0 < vertices floor.w floor.h) }
    ensures { result ≡ move_cost (floor_graph (floor_on floor.entry) dirs) u.0 v.0 }
{
    if !sight::in_sight(floor, u, v) {
        return None;
    }
    let x = floor::column_of(floor.w, u);
    let y = floor::row_of(floor.w, floor.h, u);
    for m in 0..dirs.count {
        let step = moves::move_at(dirs, m);
        if leads_to(floor.w, floor.h, x, y, step, v) {
            return Some(step.cost);
        }
    }
    None
}

// Whether the vertex v is a pinch.
#[tactic(auto, unfolding(crate::specs::Replay::pinch_at))]
fn on_pinch(floor: FloorPlan<'_>, v: Vertex) -> bool
    requires { v.0 < vertices floor.w floor.h }
    ensures { result ≡ pinch_at (floor_on floor.entry) v.0 }
{
    sight::is_pinch(
        floor,
        floor::column_of(floor.w, v),
        floor::row_of(floor.w, floor.h, v),
    )
}

// The cost at which a record of vertex v follows those read so far, if it can.
#[tactic(auto, unfolding(crate::specs::Replay::follow_cost))]
fn follow_cost(floor: FloorPlan<'_>, dirs: Directions, s: Progress, v: Vertex) -> Option<u32>
    requires { Taking floor.w floor.h floor.map.now dirs s v.0 }
    ensures { result ≡ follow_cost (floor_graph (floor_on floor.entry) dirs) (pinch_at (floor_on floor.entry))
        (before s) v.0 }
{
    if on_pinch(floor, v) {
        return None;
    }
    match s.ends {
        Some((_, last)) if last != v => move_cost(floor, dirs, last, v),
        _ => Some(0),
    }
}

// The vertex of the first record, after one of vertex v is read.
fn first_with(s: Progress, v: Vertex) -> Vertex
    ensures { result ≡ first_with s.ends v.0 }
{
    match s.ends {
        Some((first, _)) => first,
        None => v,
    }
}

// The progress after one more record, of vertex v. From the first record that cannot follow on, the cost stops growing.
#[tactic(auto, unfolding(crate::specs::Known::after_stop))]
fn take_stop(floor: FloorPlan<'_>, dirs: Directions, s: Progress, v: Vertex) -> Progress
    requires { Taking floor.w floor.h floor.map.now dirs s v.0 }
    ensures { result ≡ after_stop (floor_graph (floor_on floor.entry) dirs) (pinch_at (floor_on floor.entry)) s v.0 }
{
    let next = Progress {
        read: s.read + 1,
        ends: Some((first_with(s, v), v)),
        ..s
    };
    if s.unfollowed.is_some() {
        return next;
    }
    match follow_cost(floor, dirs, s, v) {
        Some(x) => Progress {
            cost: s.cost + x,
            ..next
        },
        None => Progress {
            unfollowed: Some(next.read),
            ..next
        },
    }
}

// Reads the log from its start to its end or to a bad record.
fn read_log(floor: FloorPlan<'_>, dirs: Directions, log: &[u8]) -> Reading
    requires { Drivable floor.w floor.h floor.map.now dirs × (length log.now ≤ 16384) }
    ensures { LogRead floor.entry.w floor.entry.h floor.entry.map.now dirs log.now result }
{
    let count = floor::vertex_count(floor.w, floor.h);
    let mut drive = Progress {
        read: 0,
        cost: 0,
        unfollowed: None,
        ends: None,
    };
    let mut cursor = LogCursor::new();
    loop {
        match cursor.step(log, count) {
            Ok(Some((v, next))) => {
                drive = take_stop(floor, dirs, drive, Vertex(v));
                cursor = next;
            }
            Ok(None) => {
                return Reading {
                    drive,
                    broken: false,
                };
            }
            Err(_) => {
                return Reading {
                    drive,
                    broken: true,
                };
            }
        }
    }
}

// The first and the last stop of a log with a record and neither fault.
fn sound_ends(r: Reading) -> Option<(Vertex, Vertex)>
    ensures { result ≡ sound_ends r }
{
    if r.broken || r.drive.unfollowed.is_some() {
        None
    } else {
        r.drive.ends
    }
}

// Whether the log is cheapest. Fills the cost slice with the true costs from the first record where the log has a
// record and neither fault, and else with 0, and the working slice with 0.
fn judge(
    floor: FloorPlan<'_>,
    dirs: Directions,
    log: &[u8],
    r: Reading,
    costs: &mut [u32],
    work: &mut [u32],
) -> bool
    requires replayable { Replayable floor.w floor.h floor.map.now dirs log.now costs.old work.old }
    requires log_read { LogRead floor.w floor.h floor.map.now dirs log.now r }
    ensures { Judged (floor_graph (floor_on floor.entry) dirs) (pinch_at (floor_on floor.entry))
        (log_of log.now (vertices floor.entry.w floor.entry.h)) result costs.new work.new }
{
    let Some((first, last)) = sound_ends(r) else {
        costs.fill(0);
        work.fill(0);
        return false;
    };
    distances::costs_from(floor, dirs, first, costs, work);
    costs[last.0] == r.drive.cost
}

// The answer for a reading; `cheapest` says whether its log is cheapest.
#[tactic(auto, unfolding(crate::specs::Known::answer_in))]
fn answer_with(r: Reading, cheapest: bool) -> Replayed
    requires { r.drive.read ≤ 4096 }
    ensures { result ≡ answer_in r cheapest }
{
    let d = r.drive;
    Replayed {
        read: d.read,
        cost: d.cost,
        unfollowed: d.unfollowed,
        bad: if r.broken { Some(d.read + 1) } else { None },
        cheapest,
    }
}

// The replay of a log where floor, neighbourhood, log and slices have a good shape.
fn replay_log(
    floor: FloorPlan<'_>,
    dirs: Directions,
    log: &[u8],
    costs: &mut [u32],
    work: &mut [u32],
) -> Replayed
    requires { Replayable floor.w floor.h floor.map.now dirs log.now costs.old work.old }
    ensures { ReplaysLog (floor_graph (floor_on floor.entry) dirs) (pinch_at (floor_on floor.entry))
        (log_of log.now (vertices floor.entry.w floor.entry.h)) result costs.new work.new }
{
    let r = read_log(floor, dirs, log);
    let cheapest = judge(floor, dirs, log, r, costs, work);
    answer_with(r, cheapest)
}

// Refusals 16 and then 6, for a log of `log` bytes and slices of `costs` and `work` places on a floor of v vertices.
#[tactic(auto, unfolding(crate::specs::Replay::log_shape))]
fn log_shape(v: usize, log: usize, costs: usize, work: usize) -> Result<(), Refusal>
    requires { v ≤ 16384 }
    ensures { result ≡ log_shape v log costs work }
{
    if 16384 < log {
        return Err(Refusal::LogLength);
    }
    if costs != v || work != 4 * v {
        return Err(Refusal::SliceLength);
    }
    Ok(())
}

// The directions of the neighbourhood, or the first refusal of 1, 2, 3, 4, 16 and 6, for a log and slices of these
// lengths.
#[tactic(auto, unfolding(crate::specs::Replay::replay_shape))]
fn replay_shape(
    w: usize,
    h: usize,
    map: &[u8],
    nb: usize,
    log: usize,
    costs: usize,
    work: usize,
) -> Result<Directions, Refusal>
    ensures { result ≡ replay_shape w h map.now nb log costs work }
{
    let dirs = grid::dirs_shape(w, h, map, nb)?;
    log_shape(floor::vertex_count(w, h), log, costs, work)?;
    Ok(dirs)
}

// The replay of a log. For every input it gives the answer and leaves the two lent slices as rules 12.9 and 6.4 say:
// refusals 1, 2, 3, 4, 16 and 6 change nothing.
//
// Lent are a slice for the costs, of V places, and a working slice of 4 * V.
#[tactic(auto, unfolding(crate::specs::Replay::replay_answer, crate::specs::Replay::replay_left))]
pub fn replay(
    w: usize,
    h: usize,
    map: &[u8],
    nb: usize,
    log: &[u8],
    costs: &mut [u32],
    work: &mut [u32],
) -> Result<Replayed, Refusal>
    ensures { Replays w h map.now nb log.now
        (replay_slices_of costs.old work.old) result
        (replay_slices_of costs.new work.new) }
{
    let dirs = replay_shape(w, h, map, nb, log.len(), costs.len(), work.len())?;
    Ok(replay_log(FloorPlan { w, h, map }, dirs, log, costs, work))
}
