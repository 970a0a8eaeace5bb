// Mending a damaged sheet: the true sheet in a second set of slices, and at how many places each slice of the damaged
// one differs from it.
//
//     mend               the operation, for every input
//     mend_shape         the shape of its input: refusals 1 to 5, 11 and 6
//     sheet_differences  at how many places two sheets differ, for each slice
//     answer_with        the answer, by the planner's answer and the differences
#![tactic(auto)]

ghost use Rattle.std.specs.Prelude.{◌≡◌};
ghost use Rattle.paths.specs.Sheet.{sheet_in as sheet_held};
ghost use Rattle.checker.specs.Answer.{sheet_sized};
ghost use Rattle.mending.specs.Mending.{mend_slices_of, sheet_differences, mend_shape, mend_number, Mends};
ghost use Rattle.mending.specs.Known.{answer_by, AlikeSheets};

use floor::{FloorPlan, Refusal, Vertex};
use moves::Directions;
use paths::Sheet;
use planner::{Plan, Slices};

// For each slice of a sheet, at how many places it differs from that of another.
#[derive(Clone, Copy, Default)]
pub struct Differences {
    pub d: usize,
    pub e: usize,
    pub f: usize,
    pub back: usize,
    pub route: usize,
    pub next: usize,
}

// The answer, where it is no refusal: the number of points of the route, if a walk joins the ends, and the differences.
#[derive(Clone, Copy)]
pub struct Mended {
    pub points: Option<usize>,
    pub differences: Differences,
}

// The number of an answer (rule 6.1).
pub fn mend_number(answer: Result<Mended, Refusal>) -> u8
    ensures { result ≡ mend_number answer }
{
    match answer {
        Ok(
            Mended {
                points: Some(_),
                ..
            },
        ) => 0,
        Ok(Mended { points: None, .. }) => u8::from(Refusal::NoRoute),
        Err(r) => u8::from(r),
    }
}

// Whether the slices of a sheet have v places each.
#[tactic(auto, unfolding(checker::specs::Answer::sheet_sized))]
fn sheet_sized(v: usize, sheet: Sheet<'_>) -> bool
    ensures { result ≡ sheet_sized v (sheet_held sheet.entry) }
{
    sheet.d.len() == v
        && sheet.e.len() == v
        && sheet.f.len() == v
        && sheet.back.len() == v
        && sheet.route.len() == v
        && sheet.next.len() == v
}

// The directions of the neighbourhood, or the first refusal of 1 to 5, 11 and 6, for the damaged sheet, the second set
// and the working slice.
#[tactic(auto, unfolding(crate::specs::Mending::mend_shape))]
fn mend_shape(
    w: usize,
    h: usize,
    map: &[u8],
    nb: usize,
    a: usize,
    b: usize,
    old: Sheet<'_>,
    second: Sheet<'_>,
    work: &[u32],
) -> Result<Directions, Refusal>
    ensures { result ≡ mend_shape w h map.now nb a b (sheet_held old.entry) (sheet_held second.entry) work.now }
{
    let dirs = grid::job_shape(w, h, map, nb, a, b)?;
    let v = floor::vertex_count(w, h);
    if !sheet_sized(v, old) || !sheet_sized(v, second) || work.len() != 4 * v {
        return Err(Refusal::SliceLength);
    }
    Ok(dirs)
}

// At how many places two sheets differ, for each slice.
fn sheet_differences(old: Sheet<'_>, new: Sheet<'_>) -> Differences
    requires { AlikeSheets (sheet_held old) (sheet_held new) }
    ensures { result ≡ sheet_differences (sheet_held old.entry) (sheet_held new.entry) }
{
    Differences {
        d: basics::differences(old.d, new.d),
        e: basics::differences(old.e, new.e),
        f: basics::differences(old.f, new.f),
        back: basics::differences(old.back, new.back),
        route: basics::differences(old.route, new.route),
        next: basics::differences(old.next, new.next),
    }
}

// The answer of a job of good shape, by the planner's answer; the differences are part of answers 0 and 7.
fn answer_with(planned: Result<Plan, Refusal>, differences: Differences) -> Result<Mended, Refusal>
    ensures { result ≡ answer_by planned differences }
{
    match planned {
        Ok(plan) => Ok(Mended {
            points: Some(plan.points),
            differences,
        }),
        Err(Refusal::NoRoute) => Ok(Mended {
            points: None,
            differences,
        }),
        Err(r) => Err(r),
    }
}

// Mends a damaged sheet of the job from a to b, which it only reads; its slices have V places each, and its point count
// is not read. For every input it gives the answer of rules 14.2 and 14.3 and leaves every lent slice as rule 6.4 says:
// answers 1 to 6 and 11 change nothing.
//
// Lent are the second set of slices, d, e, f, back (b of rule 5.1), route and next, of V places each, and a working
// slice of 4 * V.
// Kept: what may not change, the clauses of `mend` over the second set slice by slice.
#[tactic(auto, unfolding(crate::specs::Mending::mend_answer, crate::specs::Mending::mend_left))]
pub fn mend(
    w: usize,
    h: usize,
    map: &[u8],
    nb: usize,
    a: usize,
    b: usize,
    old: Sheet<'_>,
    d: &mut [u32],
    e: &mut [u32],
    f: &mut [u64],
    back: &mut [u64],
    route: &mut [u16],
    next: &mut [u16],
    work: &mut [u32],
) -> Result<Mended, Refusal>
    ensures { Mends w h map.now nb a b (sheet_held old.entry)
        (mend_slices_of d.old e.old f.old back.old route.old next.old work.old) result
        (mend_slices_of d.new e.new f.new back.new route.new next.new work.new) }
{
    let second = Sheet {
        d,
        e,
        f,
        back,
        route,
        next,
        n: 0,
    };
    let dirs = mend_shape(w, h, map, nb, a, b, old, second, work)?;
    let floor = FloorPlan { w, h, map };
    distances::costs_from(floor, dirs, Vertex(a), d, work);
    let slices = Slices {
        e,
        f,
        back,
        route,
        next,
        work,
    };
    let planned = planner::finish_job(floor, dirs, Vertex(a), Vertex(b), d, slices);
    let differences = sheet_differences(
        old,
        Sheet {
            d,
            e,
            f,
            back,
            route,
            next,
            n: 0,
        },
    );
    answer_with(planned, differences)
}
