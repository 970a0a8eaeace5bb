// The tests of the vertices: the costs and counts of each are compared with those of its neighbours, in one pass over
// the floor.
ghost use Rattle.std.specs.Prelude.{◌≡◌, ◌≤◌, ◌<◌, eqb, length};
ghost use Rattle.floor.specs.Plan.{floor_on};
ghost use Rattle.masks.specs.Windows.{WindowsTo};
ghost use Rattle.offsets.specs.Classes.{Classes};
ghost use Rattle.offsets.specs.Offsets.{Shifts};
ghost use Rattle.paths.specs.Local.{entry, count_at, Shaped, blank_at};
ghost use Rattle.paths.specs.Sheet.{sheet_in};
ghost use Rattle.grid.specs.Grid.{floor_graph};
ghost use Rattle.grid.specs.Leaving.{leaving_graph};
ghost use Rattle.neighbours.specs.Reading.{mask_graph, Readable};
ghost use Rattle.checker.specs.Tests.{counts_test, vertex_test, row_test, vertices_test, CheckInput};

use floor::{FloorPlan, Vertex};
use moves::Directions;
use offsets::Class;
use paths::Sheet;

// The count f[v] from the source passes the test at v: it is 0 off the way, 1 at the source, and elsewhere the sum over
// the moves into v. `on` says whether v is on the way. A sum above 2^64 - 1 is no number of the sheet.
fn count_right(
    dirs: Directions,
    shifts: &[usize],
    mask: u32,
    source: usize,
    on: bool,
    d: &[u32],
    f: &[u64],
    v: usize,
) -> bool
    requires { Readable (length d.now) dirs shifts.now mask v × (length f.now ≡ length d.now) }
    ensures { result ≡ eqb (entry f.now v) (count_at
        (mask_graph (length d.now) dirs shifts.now mask)
        source (λ u. on) (entry d.now) (entry f.now) v) }
{
    if !on {
        return f[v] == 0;
    }
    if v == source {
        return f[v] == 1;
    }
    neighbours::inflow_at(dirs, shifts, mask, d, f, v) == Some(f[v])
}

// Both counts of v pass the test of a route sheet.
#[tactic(auto, unfolding(crate::specs::Tests::counts_test))]
fn counts_right(
    dirs: Directions,
    shifts: &[usize],
    mask: u32,
    a: usize,
    b: usize,
    sheet: Sheet<'_>,
    v: usize,
) -> bool
    requires { Readable (length sheet.d.now) dirs shifts.now mask v × (b < length sheet.d.now)
        × Shaped (length sheet.d.now) (sheet_in sheet) }
    ensures { result ≡ counts_test (mask_graph (length sheet.entry.d.now) dirs shifts.now mask) a b
        (sheet_in sheet.entry) v }
{
    let on = neighbours::on_way(sheet.d, sheet.e, b, v);
    count_right(dirs, shifts, mask, a, on, sheet.d, sheet.f, v)
        && count_right(dirs, shifts, mask, b, on, sheet.e, sheet.back, v)
}

// The numbers of v beside its cost from a are those of a no_route sheet: 0.
fn blank_at(sheet: Sheet<'_>, v: usize) -> bool
    requires { (v < length sheet.d.now) × Shaped (length sheet.d.now) (sheet_in sheet) }
    ensures { result ≡ blank_at (sheet_in sheet.entry) v }
{
    sheet.e[v] == 0
        && sheet.f[v] == 0
        && sheet.back[v] == 0
        && sheet.route[v] == 0
        && sheet.next[v] == 0
}

// The numbers of v pass the test: of a route sheet where `joined` holds, otherwise of a no_route sheet, where all but
// the cost from a are 0. The costs are tested by the classes of the moves, the counts move by move.
#[tactic(auto, unfolding(crate::specs::Tests::vertex_test))]
fn vertex_right(
    dirs: Directions,
    shifts: &[usize],
    classes: [Class; offsets::CLASSES],
    mask: u32,
    joined: bool,
    a: usize,
    b: usize,
    sheet: Sheet<'_>,
    v: usize,
) -> bool
    requires { Readable (length sheet.d.now) dirs shifts.now mask v × Classes dirs classes
        × (b < length sheet.d.now) × Shaped (length sheet.d.now) (sheet_in sheet) }
    ensures { result ≡ vertex_test joined (mask_graph (length sheet.entry.d.now) dirs shifts.now mask) a b
        (sheet_in sheet.entry) v }
{
    // The two costs are read here so that they are known to fit 32 bits.
    let _from = sheet.d[v];
    let _to = sheet.e[v];
    if joined {
        return neighbours::costs_right(shifts, classes, mask, a, b, sheet.d, sheet.e, v)
            && counts_right(dirs, shifts, mask, a, b, sheet, v);
    }
    neighbours::cost_right(shifts, classes, mask, a, sheet.d, v) && blank_at(sheet, v)
}

// The numbers of the vertices of row y pass the test, over the moves that leave each.
fn row_right(
    floor: FloorPlan<'_>,
    dirs: Directions,
    joined: bool,
    a: usize,
    b: usize,
    sheet: Sheet<'_>,
    shifts: &[usize],
    windows: [u32; 16],
    y: usize,
) -> bool
    requires { CheckInput floor.w floor.h floor.map.now dirs a b (sheet_in sheet) × (y ≤ floor.h)
        × WindowsTo dirs 16 windows × Shifts floor.w dirs shifts.now }
    ensures { result ≡ row_test joined (leaving_graph (floor_on floor.entry) dirs) a b
        (sheet_in sheet.entry) floor.entry.w y }
{
    let classes = offsets::classes_of(dirs);
    let leaving = masks::leaving_row(floor, dirs, y, windows);
    neighbours::row_passes(floor.w, y, leaving, |v, mask| {
        vertex_right(dirs, shifts, classes, mask, joined, a, b, sheet, v)
    })
}

// The numbers of every vertex pass the test: one pass over the floor, row by row, up to the first row that fails.
//
// A move to a pinch is read as open. This changes nothing: no move leaves a pinch, so the test at the pinch asks for
// the cost M there, and from a cost of M nothing is added elsewhere.
pub fn vertices_right(
    floor: FloorPlan<'_>,
    dirs: Directions,
    joined: bool,
    a: Vertex,
    b: Vertex,
    sheet: Sheet<'_>,
) -> bool
    requires { CheckInput floor.w floor.h floor.map.now dirs a.0 b.0 (sheet_in sheet) }
    ensures { result ≡ vertices_test joined (floor_graph (floor_on floor.entry) dirs) a.0 b.0 (sheet_in sheet.entry) }
{
    let shifts = offsets::shifts_of(floor.w, dirs);
    let windows = masks::window_masks(dirs);
    (0..floor.h + 1).all(|y| row_right(floor, dirs, joined, a.0, b.0, sheet, &shifts, windows, y))
}
