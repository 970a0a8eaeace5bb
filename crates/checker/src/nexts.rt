// The test of the next vertices: a second pass over the floor, once costs and counts are known to be right, since only
// then do the products of counts fit 64 bits.
ghost use Rattle.std.specs.Prelude.{◌≡◌, ◌≤◌, length};
ghost use Rattle.floor.specs.Plan.{floor_on};
ghost use Rattle.masks.specs.Windows.{WindowsTo};
ghost use Rattle.offsets.specs.Offsets.{Shifts};
ghost use Rattle.paths.specs.Sheet.{sheet_in};
ghost use Rattle.paths.specs.Local.{right_next};
ghost use Rattle.grid.specs.Grid.{floor_graph};
ghost use Rattle.neighbours.specs.Reading.{mask_graph};
ghost use Rattle.neighbours.specs.Choice.{Choosing, Counted, LeadsBy};
ghost use Rattle.checker.specs.Tests.{next_row_test, nexts_test, Choosable};

use floor::{FloorPlan, Vertex};
use moves::Directions;
use paths::Sheet;

// The next vertex of v is right: off the way it is 0, at b it is b, and elsewhere the vertex that the central rule
// gives.
fn next_right(
    dirs: Directions,
    shifts: &[usize],
    mask: u32,
    b: usize,
    sheet: Sheet<'_>,
    v: usize,
) -> bool
    requires { Choosing dirs shifts.now mask sheet.d.now sheet.e.now b v
        × Counted (length sheet.d.now) sheet.f.now sheet.back.now
        × LeadsBy dirs shifts.now mask sheet.d.now sheet.e.now sheet.f.now sheet.back.now b v
        × (length sheet.next.now ≡ length sheet.d.now) }
    ensures { result ≡ right_next (mask_graph (length sheet.entry.d.now) dirs shifts.now mask) b (sheet_in sheet.entry) v }
{
    let x = usize::from(sheet.next[v]);
    if !neighbours::on_way(sheet.d, sheet.e, b, v) {
        return x == 0;
    }
    if v == b {
        return x == b;
    }
    x == neighbours::next_at(
        dirs, shifts, mask, sheet.d, sheet.e, sheet.f, sheet.back, b, v,
    )
    .0
}

// The next vertices of row y are right, over the moves that leave each vertex. Where no vertex of the row is on the
// way, its moves are not read.
fn row_right(
    floor: FloorPlan<'_>,
    dirs: Directions,
    b: usize,
    sheet: Sheet<'_>,
    shifts: &[usize],
    windows: [u32; 16],
    y: usize,
) -> bool
    requires { Choosable floor.w floor.h floor.map.now dirs b (sheet_in sheet) × (y ≤ floor.h)
        × WindowsTo dirs 16 windows × Shifts floor.w dirs shifts.now }
    ensures { result ≡ next_row_test (floor_graph (floor_on floor.entry) dirs) b (sheet_in sheet.entry) floor.entry.w y }
{
    let first = y * (floor.w + 1);
    let past = first + (floor.w + 1);
    if !neighbours::any_on_way(sheet.d, sheet.e, b, first, past) {
        return crate::zeros::all_zero(sheet.next, first, past);
    }
    let leaving = masks::leaving_row(floor, dirs, y, windows);
    neighbours::row_passes(
        floor.w,
        y,
        leaving,
        |v, mask| next_right(dirs, shifts, mask, b, sheet, v),
    )
}

// The next vertex of every vertex is right: row by row, up to the first row that fails. A move to a pinch is read as
// open. This changes nothing: the cost of a pinch is M, so it is never the next vertex.
pub fn nexts_right(floor: FloorPlan<'_>, dirs: Directions, b: Vertex, sheet: Sheet<'_>) -> bool
    requires { Choosable floor.w floor.h floor.map.now dirs b.0 (sheet_in sheet) }
    ensures { result ≡ nexts_test (floor_graph (floor_on floor.entry) dirs) b.0 (sheet_in sheet.entry) }
{
    let shifts = offsets::shifts_of(floor.w, dirs);
    let windows = masks::window_masks(dirs);
    (0..floor.h + 1).all(|y| row_right(floor, dirs, b.0, sheet, &shifts, windows, y))
}
