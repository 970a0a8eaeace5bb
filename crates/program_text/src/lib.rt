// One job of the program: planned, thinned and written as lines; and one turn of the program, which writes the text of
// one record.
#![tactic(auto)]

ghost use Rattle.std.specs.Prelude.{◌≡◌, ◌≤◌};
ghost use Rattle.floor.specs.Floor.{stored_cells, vertices};
ghost use Rattle.floor.specs.Plan.{floor_on};
ghost use Rattle.planner.specs.Plan.{slices_of};
ghost use Rattle.planner.specs.Parts.{FullSlices};
ghost use Rattle.records.specs.Format.{cells_of};
ghost use Rattle.program_text.specs.Contract.{
  Ready,
  Room,
  JobPlanned,
  JobWritten,
  Routable,
  RouteWritten,
  CellsIn,
  TurnWritten,
};

use floor::{FloorPlan, Refusal};
use planner::Plan;
use records::lines;
use records::stream::{Cursor, JobRecord, MapRecord, Record};

// What a turn wrote: a number of bytes, with the cursor at which the program goes on; none where they are the last.
#[derive(Clone, Copy)]
pub struct Turn {
    pub bytes: usize,
    pub next: Option<Cursor>,
}

// The two lines of a route: thins its points, the first places of the list `points`, and writes what is kept.
fn route_text(
    floor: FloorPlan<'_>,
    number: usize,
    plan: Plan,
    points: &[u16],
    kept: &mut [u16],
    out: &mut [u8],
) -> usize
    requires { Routable floor.w floor.h floor.map.now points.now plan.points kept.old out.old }
    ensures { RouteWritten (floor_on floor.entry) number plan.cost plan.total plan.points points.now
        kept.old out.old kept.new result out.new }
{
    let n = plan.points;
    let k = thinning::thin(floor.w, floor.h, floor.map, points, kept, n).unwrap_or(0);
    let next = lines::put_route(out, 0, number, plan.cost, plan.total, n, k);
    lines::put_at(out, next, points, kept, k)
}

// The lines of a job that has this answer. After a route its points stand in `route`.
fn answer_text(
    floor: FloorPlan<'_>,
    job: JobRecord,
    answer: Result<Plan, Refusal>,
    route: &[u16],
    kept: &mut [u16],
    out: &mut [u8],
) -> usize
    requires { Room floor.w floor.h floor.map.now kept.old out.old
        × JobPlanned floor.w floor.h floor.map.now job answer route.now }
    ensures { JobWritten floor.entry.w floor.entry.h floor.entry.map.now job kept.old out.old result
        kept.new out.new }
{
    match answer {
        Err(r) => lines::put_refused(out, 0, job.number, u8::from(r)),
        Ok(plan) => route_text(floor, job.number, plan, route, kept, out),
    }
}

// Plans a job from the costs in d, which are those from the start of the job before. Where they are not the costs from
// the start of this job, fills d and plans again. So the costs from one start are worked out once for a run of jobs
// from it.
// Kept: no plainer, since planner::finish takes the slices one by one; likewise in `job_text` and `take_turn`.
fn plan_job(
    floor: FloorPlan<'_>,
    job: JobRecord,
    d: &mut [u32],
    e: &mut [u32],
    f: &mut [u64],
    back: &mut [u64],
    route: &mut [u16],
    next: &mut [u16],
    work: &mut [u32],
) -> Result<Plan, Refusal>
    requires { FullSlices (vertices floor.w floor.h)
        d.old e.old f.old back.old route.old next.old work.old }
    ensures { JobPlanned floor.entry.w floor.entry.h floor.entry.map.now job result route.new }
{
    let (w, h, map) = (floor.w, floor.h, floor.map);
    let (nb, a, b) = (job.neighbourhood, job.start, job.end);
    let first = planner::finish(w, h, map, nb, a, b, d, e, f, back, route, next, work);
    if first != Err(Refusal::FalseSheet) {
        return first;
    }
    let _ = planner::fill_costs(w, h, map, nb, a, d, work);
    planner::finish(w, h, map, nb, a, b, d, e, f, back, route, next, work)
}

// Writes the lines of a job at the start of `out` and answers the number of their bytes.
//
// Lent are the slices of the sheet, the working slice, a slice for the kept positions, and room for the lines. d keeps
// its costs for the next job.
pub fn job_text(
    floor: FloorPlan<'_>,
    job: JobRecord,
    d: &mut [u32],
    e: &mut [u32],
    f: &mut [u64],
    back: &mut [u64],
    route: &mut [u16],
    next: &mut [u16],
    work: &mut [u32],
    kept: &mut [u16],
    out: &mut [u8],
) -> usize
    requires { Ready floor.w floor.h floor.map.now d.old
        (slices_of e.old f.old back.old route.old next.old work.old) kept.old out.old }
    ensures { JobWritten floor.entry.w floor.entry.h floor.entry.map.now job kept.old out.old result
        kept.new out.new }
{
    let answer = plan_job(floor, job, d, e, f, back, route, next, work);
    answer_text(floor, job, answer, route, kept, out)
}

// Stores the cells of the map m of the input in `map`.
pub fn copy_cells(s: &[u8], m: MapRecord, map: &mut [u8])
    requires { CellsIn s.now m map.old }
    ensures { map.new ≡ stored_cells (cells_of s.now m) }
{
    floor::store_cells(&s[m.cells..m.cells + m.wide * m.high], map);
}

// One turn of the program past the map: writes the text of the record at the cursor at the start of `out`. The texts of
// all turns, one after the other, are what the program writes.
pub fn take_turn(
    s: &[u8],
    c: Cursor,
    floor: FloorPlan<'_>,
    d: &mut [u32],
    e: &mut [u32],
    f: &mut [u64],
    back: &mut [u64],
    route: &mut [u16],
    next: &mut [u16],
    work: &mut [u32],
    kept: &mut [u16],
    out: &mut [u8],
) -> Turn
    requires { (1 ≤ c.due) × Ready floor.w floor.h floor.map.now d.old
        (slices_of e.old f.old back.old route.old next.old work.old) kept.old out.old }
    ensures { TurnWritten s.now floor.entry.w floor.entry.h floor.entry.map.now c result out.new }
{
    match c.step(s) {
        Ok(Some((Record::Job(job), past))) => {
            let bytes = job_text(floor, job, d, e, f, back, route, next, work, kept, out);
            Turn {
                bytes,
                next: Some(past),
            }
        }
        Ok(None) => Turn {
            bytes: 0,
            next: None,
        },
        Ok(Some((Record::Map(_), _))) => Turn {
            bytes: 0,
            next: None,
        },
        Err(bad) => {
            let bytes = lines::put_bad(out, 0, bad.at);
            Turn { bytes, next: None }
        }
    }
}
