// What changed between two floors of one size: the cells that differ, and the costs from a start. The first floor is
// the one before the change, the second, whose names end in 2, the one after it.
#![tactic(auto)]

ghost use Rattle.std.specs.Prelude.{◌≡◌, ◌+◌, ◌<◌, ◌≤◌, length};
ghost use Rattle.basics.specs.Lists.{tabulate};
ghost use Rattle.floor.specs.Floor.{floor_of};
ghost use Rattle.grid.specs.Grid.{floor_graph};
ghost use Rattle.changes.specs.Changes.{given_floor_of, floors_shape, cells_shape, ReportsCells, change_of};
ghost use Rattle.changes.specs.Changes.{report_slices_of, slices_shape, report_shape, costs_on, ReportsCosts};
ghost use Rattle.changes.specs.Known.{MapsOf, Noted, change_at, Reportable};

use floor::{Cell, FloorPlan, Refusal, Vertex};
use moves::Directions;

// How many cells closed, open on the first floor and blocked on the second, and how many opened.
#[derive(Clone, Copy)]
pub struct Tally {
    pub closed: usize,
    pub opened: usize,
}

// Refusals 1 to 3 of the first floor, then of the second, then 15.
// Kept: what may not change: the parameters of `cell_changes` and `cost_changes`, which are tested here.
#[tactic(auto, unfolding(crate::specs::Changes::floors_shape))]
fn floors_shape(
    w: usize,
    h: usize,
    map: &[u8],
    w2: usize,
    h2: usize,
    map2: &[u8],
) -> Result<(), Refusal>
    ensures { result ≡ floors_shape (given_floor_of w h map.now) (given_floor_of w2 h2 map2.now) }
{
    floor::floor_shape(w, h, map)?;
    floor::floor_shape(w2, h2, map2)?;
    if w != w2 || h != h2 {
        return Err(Refusal::SizesDiffer);
    }
    Ok(())
}

// The refusals of the first report, for a slice of `places` places: 1 to 3 of each floor, 15, then 6.
#[tactic(auto, unfolding(crate::specs::Changes::cells_shape))]
fn cells_shape(
    w: usize,
    h: usize,
    map: &[u8],
    w2: usize,
    h2: usize,
    map2: &[u8],
    places: usize,
) -> Result<(), Refusal>
    ensures { result ≡ cells_shape (given_floor_of w h map.now) (given_floor_of w2 h2 map2.now)
        places }
{
    floors_shape(w, h, map, w2, h2, map2)?;
    if places != w * h {
        return Err(Refusal::SliceLength);
    }
    Ok(())
}

// Notes cell c, where the cells before it are noted in `t` and `cells`: a cell that differs is counted, and its number
// stored after those of the cells before it. It returns early: with `if` and `else` as its value the loop that calls it
// took 1.2 to 1.4 of the time.
fn note_cell(map: &[u8], map2: &[u8], c: Cell, t: Tally, cells: &mut [u16]) -> Tally
    requires { Noted map.now map2.now (length cells.old) c.0 t cells.old × (c.0 < length cells.old) }
    ensures { Noted map.now map2.now (length cells.old) (c.0 + 1) result
        cells.new }
{
    let was_blocked = floor::is_blocked(map, c);
    let is_blocked = floor::is_blocked(map2, c);
    if was_blocked == is_blocked {
        return t;
    }
    let at = t.closed + t.opened;
    cells[at] = c.0 as u16;
    if is_blocked {
        return Tally {
            closed: t.closed + 1,
            ..t
        };
    }
    Tally {
        opened: t.opened + 1,
        ..t
    }
}

// Writes the numbers of the cells that differ, ascending, then 0; returns how many closed and how many opened.
// Kept: no plainer, since `note_cell` writes at another place than that of the cell: the index.
fn list_cells(map: &[u8], map2: &[u8], cells: &mut [u16]) -> Tally
    requires { MapsOf map.now map2.now (length cells.old) }
    ensures { Noted map.now map2.now (length cells.old)
        (length cells.old) result cells.new }
{
    cells.fill(0);
    let mut t = Tally {
        closed: 0,
        opened: 0,
    };
    for c in 0..cells.len() {
        t = note_cell(map, map2, Cell(c), t, cells);
    }
    t
}

// The first report: which cells differ. For every input it gives the answer of rule 13.3 and leaves the lent slice as
// rule 6.4 says. A refusal (1 to 3 of either floor, 15, 6) touches nothing.
//
// Lent is a slice for the numbers of cells, of W * H places.
#[tactic(auto, unfolding(crate::specs::Changes::cells_answer, crate::specs::Changes::cells_left))]
pub fn cell_changes(
    w: usize,
    h: usize,
    map: &[u8],
    w2: usize,
    h2: usize,
    map2: &[u8],
    cells: &mut [u16],
) -> Result<Tally, Refusal>
    ensures { ReportsCells (given_floor_of w h map.now) (given_floor_of w2 h2 map2.now)
        cells.old result cells.new }
{
    cells_shape(w, h, map, w2, h2, map2, cells.len())?;
    Ok(list_cells(map, map2, cells))
}

// How a cost changed from x to y: 0 not at all, 3 from M, 4 to M, otherwise 1 fell, 2 rose.
#[tactic(auto, unfolding(crate::specs::Changes::change_of))]
fn change_of(x: u32, y: u32) -> u8
    ensures { result ≡ change_of x y }
{
    if x == y {
        0
    } else if x == paths::UNREACHABLE {
        3
    } else if y == paths::UNREACHABLE {
        4
    } else if y < x {
        1
    } else {
        2
    }
}

// Writes how the cost of each vertex changed.
fn write_changes(costs: &[u32], costs2: &[u32], changes: &mut [u8])
    requires { (length costs.now ≡ length changes.old) × (length costs2.now ≡ length changes.old) }
    ensures { changes.new
        ≡ tabulate (length changes.old) (change_at costs.now costs2.now) }
{
    for (v, change) in changes.iter_mut().enumerate() {
        *change = change_of(costs[v], costs2[v]);
    }
}

// The second report on two floors of one size, where floors, neighbourhood, start and slices have a good shape.
fn report_costs(
    w: usize,
    h: usize,
    map: &[u8],
    map2: &[u8],
    dirs: Directions,
    a: Vertex,
    costs: &mut [u32],
    costs2: &mut [u32],
    changes: &mut [u8],
    work: &mut [u32],
)
    requires { Reportable w h map.now map2.now dirs a.0 costs.old costs2.old changes.old work.old }
    ensures { report_slices_of costs.new costs2.new changes.new work.new
        ≡ costs_on (floor_graph (floor_of w h map.now) dirs)
        (floor_graph (floor_of w h map2.now) dirs) a.0 }
{
    distances::costs_from(FloorPlan { w, h, map }, dirs, a, costs, work);
    distances::costs_from(FloorPlan { w, h, map: map2 }, dirs, a, costs2, work);
    write_changes(costs, costs2, changes);
}

// Refusal 6 of the second report, for slices of these lengths on a floor of v vertices.
#[tactic(auto, unfolding(crate::specs::Changes::slices_shape))]
fn slices_shape(
    v: usize,
    costs: usize,
    costs2: usize,
    changes: usize,
    work: usize,
) -> Result<(), Refusal>
    requires { v ≤ 16384 }
    ensures { result ≡ slices_shape v costs costs2 changes work }
{
    if costs != v || costs2 != v || changes != v || work != 4 * v {
        return Err(Refusal::SliceLength);
    }
    Ok(())
}

// The directions of the neighbourhood, or the first refusal of the second report, for slices of these lengths: 1 to 3
// of each floor, 15, 4, 5, 11 on either floor, then 6.
#[tactic(auto, unfolding(crate::specs::Changes::report_shape))]
fn report_shape(
    w: usize,
    h: usize,
    map: &[u8],
    w2: usize,
    h2: usize,
    map2: &[u8],
    nb: usize,
    a: usize,
    costs: usize,
    costs2: usize,
    changes: usize,
    work: usize,
) -> Result<Directions, Refusal>
    ensures { result ≡ report_shape (given_floor_of w h map.now) (given_floor_of w2 h2 map2.now) nb a
        costs costs2 changes work }
{
    floors_shape(w, h, map, w2, h2, map2)?;
    let dirs = grid::job_shape(w, h, map, nb, a, a)?;
    grid::job_shape(w2, h2, map2, nb, a, a)?;
    slices_shape(floor::vertex_count(w, h), costs, costs2, changes, work)?;
    Ok(dirs)
}

// The second report: how the costs from a start changed. For every input it gives the answer of rule 13.4 and leaves
// the lent slices as rules 13.5 and 6.4 say. A refusal (1 to 3 of either floor, 15, 4, 5, 11, 6) touches nothing.
//
// Lent are slices for the costs on each floor and for their changes, of V places each, and a working slice of 4 * V.
#[tactic(auto, unfolding(crate::specs::Changes::costs_answer, crate::specs::Changes::costs_left))]
pub fn cost_changes(
    w: usize,
    h: usize,
    map: &[u8],
    w2: usize,
    h2: usize,
    map2: &[u8],
    nb: usize,
    a: usize,
    costs: &mut [u32],
    costs2: &mut [u32],
    changes: &mut [u8],
    work: &mut [u32],
) -> Result<(), Refusal>
    ensures { ReportsCosts (given_floor_of w h map.now) (given_floor_of w2 h2 map2.now) nb a
        (report_slices_of costs.old costs2.old changes.old work.old) result
        (report_slices_of costs.new costs2.new changes.new work.new) }
{
    let dirs = report_shape(
        w,
        h,
        map,
        w2,
        h2,
        map2,
        nb,
        a,
        costs.len(),
        costs2.len(),
        changes.len(),
        work.len(),
    )?;
    report_costs(
        w,
        h,
        map,
        map2,
        dirs,
        Vertex(a),
        costs,
        costs2,
        changes,
        work,
    );
    Ok(())
}
