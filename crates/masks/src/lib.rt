// Masks of moves: a number with a bit for each direction of the tables. `leaving_row` has those of the moves that leave
// the vertices of a row, and `fill_masks` those of the open moves of all vertices.
// A window is the four cells at a vertex. The tests of a move and of a pinch are called for the sixteen windows only,
// each as a floor of 2 by 2 cells; the mask of a vertex is then read by its cells.
#![tactic(auto)]

ghost use Rattle.std.specs.Prelude.{◌≡◌, true, false, suc, ◌+◌, ◌^◌, ◌<◌, ◌≤◌, nat_abs, length};
ghost use Rattle.basics.specs.Bounded.{pick};
ghost use Rattle.basics.specs.Bits.{bit};
ghost use Rattle.floor.specs.Floor.{floor_of, vertices, number};
ghost use Rattle.floor.specs.Plan.{floor_on};
ghost use Rattle.moves.specs.Moves.{move_of, dir_count};
ghost use Rattle.moves.specs.Table.{Listed, sixteen_dirs, table_of, Short, narrow, OnFloor};
ghost use Rattle.masks.specs.Masks.{OpenMasks, LeavingRow, LeavingTo, pinch_bit};
ghost use Rattle.masks.specs.Windows.{pair_at, start_of, open_in, pinch_of, Window, WindowsTo};
ghost use Rattle.masks.specs.Windows.{WindowRow, WindowLines, joined_mask, all_bits};
ghost use Rattle.masks.specs.Masks.{Cleared, WithoutBit, turned_dir, ClearsMove, ClearsTo};

use floor::FloorPlan;
use moves::{Directions, EIGHT_DIRS, SIXTEEN_DIRS};

// The mask of a pinch: bit 15 alone, which is no direction of a neighbourhood.
const PINCH: u32 = 32768;

// The bits of all directions.
const ALL: u32 = 4294967295;

// Of the directions of the sixteen, UNIT has those of the eight moves by at most one column and one row, and the bit of
// a pinch; LEFT, RIGHT, UPPER and LOWER have those of the moves by two columns or rows to that side.
const UNIT: u32 = 1431666688;

const LEFT: u32 = 41943040;

const RIGHT: u32 = 2147614720;

const UPPER: u32 = 671088640;

const LOWER: u32 = 2621440;

// The line of a floor of 2 by 2 cells, 0, 1 or 2, from which a move by d has its cells in that floor: 0 for d = 2, 2
// for d = -2, else 1.
fn start_of(d: i8) -> usize
    requires { nat_abs d ≤ 2 }
    ensures { (result ≡ start_of d) × (result ≤ 2) }
{
    let o = moves::parts_of(d);
    1 + o.down / 2 - o.up / 2
}

// The bit of direction k where a move of these offsets is open in a floor of 2 by 2 cells whose middle is no pinch,
// else 0. Bit c of b says that cell c of that floor is blocked. The offsets are arguments of their own, so that the
// test is compiled for them where they are constants.
fn dir_open(b: u8, dx: i8, dy: i8, k: usize) -> u32
    requires { Short (move_of dx dy 0) × (narrow (move_of dx dy 0) ≡ true) × (k < dir_count)
        × (pinch_of (bit b 0) (bit b 1) (bit b 2) (bit b 3) ≡ false) }
    ensures { result ≡ pick (open_in (move_of dx dy 0) (bit b 0) (bit b 1) (bit b 2) (bit b 3)) (2 ^ k) 0 }
{
    let map = floor::window_map(b);
    let floor = FloorPlan {
        w: 2,
        h: 2,
        map: &map,
    };
    u32::from(moves::is_unblocked(floor, start_of(dx), start_of(dy), dx, dy)) << k
}

// The mask of window b for the N directions of a table. The number is a constant of the function, and the table one
// where it is called: each of the two tables has a function of its own, of which the compiler writes the loop out move
// by move.
#[tactic(auto, using(crate::proofs::Tables::tables))]
fn table_open<const N: usize>(b: u8, table: Directions) -> u32
    requires { Listed table × (table.count ≡ N) × (pinch_of (bit b 0) (bit b 1) (bit b 2) (bit b 3) ≡ false) }
    ensures { Window table b result }
{
    let mut mask: u32 = 0;
    for m in 0..N {
        let t = moves::move_at(table, m);
        mask |= dir_open(b, t.dx, t.dy, moves::dir_at(table, m));
    }
    mask
}

// The mask of window b for the directions. Those of a neighbourhood of 4 are among the eight.
fn window_mask(b: u8, dirs: Directions) -> u32
    requires { Listed dirs }
    ensures { Window dirs b result }
{
    let map = floor::window_map(b);
    let floor = FloorPlan {
        w: 2,
        h: 2,
        map: &map,
    };
    if sight::is_pinch(floor, 1, 1) {
        PINCH
    } else if dirs.count == 16 {
        table_open::<16>(b, SIXTEEN_DIRS)
    } else {
        table_open::<8>(b, EIGHT_DIRS)
    }
}

// The masks of all sixteen windows, made once for each pass over a floor.
pub fn window_masks(dirs: Directions) -> [u32; 16]
    requires { Listed dirs }
    ensures { WindowsTo dirs 16 result }
{
    let mut masks = [0; 16];
    for (b, mask) in masks.iter_mut().enumerate() {
        *mask = window_mask(b as u8, dirs);
    }
    masks
}

// The two cells to the left of column line x at row line y: 1 where the upper is blocked, and 4 where the lower is.
fn pair_at(floor: FloorPlan<'_>, x: usize, y: usize) -> usize
    requires { y ≤ 128 }
    ensures { (result ≡ pair_at (floor_on floor.entry) x y) × (result ≤ 5) }
{
    let upper = floor.blocked_at(x, y);
    let lower = floor.blocked_at(x, y + 1);
    usize::from(upper) + 4 * usize::from(lower)
}

// The masks of the windows of line y, each read from `windows` by the four cells at the vertex. The two cells on its
// left are those on the right of the vertex before. Line h + 1 is past the floor, where all cells are blocked.
// Kept: the project's rule: no heap, fixed memory: a row has at most 128 vertices, and the first w + 1 are its own.
pub fn window_row(floor: FloorPlan<'_>, y: usize, windows: [u32; 16]) -> [u32; 128]
    requires { (y ≤ suc floor.h) × (length windows ≡ 16) }
    ensures { WindowRow (floor_on floor.entry) y windows (suc floor.entry.w) result }
{
    let mut masks = [0; 128];
    let mut left = pair_at(floor, 0, y);
    for x in 0..floor.w + 1 {
        let right = pair_at(floor, x + 1, y);
        masks[x] = windows[left + 2 * right];
        left = right;
    }
    masks
}

// Whether a mask marks a pinch.
fn marks_pinch(mask: u32) -> bool
    ensures { result ≡ bit mask pinch_bit }
{
    (mask >> 15) % 2 == 1
}

// 0 where the mask `here` of a window marks a pinch, else all bits.
fn all_unless_pinch(here: u32) -> u32
    ensures { result ≡ pick (bit here pinch_bit) 0 all_bits }
{
    if marks_pinch(here) { 0 } else { ALL }
}

// The mask of the sixteen moves that leave a vertex, from the masks of the windows at the vertex and at those on its
// left, its right, above and below it: a move by two columns or rows has its cells in the window on that side. The mask
// of a window that is a pinch has no direction, and the far directions are masked off there. All of it is bit
// operations, which the compiler runs on several vertices at a time.
fn joined(here: u32, left: u32, right: u32, upper: u32, lower: u32) -> u32
    ensures { result ≡ joined_mask here left right upper lower }
{
    let far = (left & LEFT) | (right & RIGHT) | (upper & UPPER) | (lower & LOWER);
    (here & UNIT) | (far & all_unless_pinch(here))
}

// The masks of the vertices of row y for the sixteen directions, from the windows of its line and of the lines above
// and below, made in place: `line` has the windows of its line, and then the masks. At the left edge the first window
// stands for the one on its left: the left cells of both are blocked. Past the last vertex all cells are blocked,
// window 15. The lines are lent: an array by value would be copied, and stand on the stack twice.
pub fn join_line(
    floor: FloorPlan<'_>,
    y: usize,
    windows: &[u32],
    above: &[u32],
    below: &[u32],
    line: &mut [u32],
)
    requires { (y ≤ floor.h) × WindowsTo sixteen_dirs 16 windows.now
        × WindowLines (floor_of floor.w floor.h floor.map.now) y windows.now above.now line.old below.now }
    ensures { LeavingRow (floor_on floor.entry) sixteen_dirs y (suc floor.entry.w) line.new }
{
    let w = floor.w;
    let mut before = line[0];
    for x in 0..w {
        let here = line[x];
        line[x] = joined(here, before, line[x + 1], above[x], below[x]);
        before = here;
    }
    line[w] = joined(line[w], before, windows[15], above[w], below[w]);
}

// The masks of the moves that leave the vertices of row y, from the windows of its line and of the lines above and
// below. With 4 or 8 directions they are the masks of the windows of its line, answered with no copy of a line.
pub fn leaving_between(
    floor: FloorPlan<'_>,
    dirs: Directions,
    y: usize,
    windows: [u32; 16],
    above: [u32; 128],
    here: [u32; 128],
    below: [u32; 128],
) -> [u32; 128]
    requires { (y ≤ floor.h) × Listed dirs × WindowsTo dirs 16 windows
        × WindowLines (floor_of floor.w floor.h floor.map.now) y windows above here below }
    ensures { LeavingRow (floor_on floor.entry) dirs y (suc floor.entry.w) result }
{
    if dirs.count != 16 {
        return here;
    }
    let mut masks = here;
    join_line(floor, y, &windows, &above, &below, &mut masks);
    masks
}

// The masks of the moves that leave the vertices of row y, from the masks of all windows. Line 0 stands for the line
// above it: the upper cells of the windows of both are blocked.
pub fn leaving_row(
    floor: FloorPlan<'_>,
    dirs: Directions,
    y: usize,
    windows: [u32; 16],
) -> [u32; 128]
    requires { (y ≤ floor.h) × Listed dirs × WindowsTo dirs 16 windows }
    ensures { LeavingRow (floor_on floor.entry) dirs y (suc floor.entry.w) result }
{
    let here = window_row(floor, y, windows);
    if dirs.count != 16 {
        return here;
    }
    let above = window_row(floor, y.saturating_sub(1), windows);
    let below = window_row(floor, y + 1, windows);
    leaving_between(floor, dirs, y, windows, above, here, below)
}

// Stores the masks of the vertices of row y, where those of the rows before it are stored.
fn store_row(
    floor: FloorPlan<'_>,
    dirs: Directions,
    y: usize,
    leaving: [u32; 128],
    masks: &mut [u32],
)
    requires { (y ≤ floor.h) × LeavingRow (floor_of floor.w floor.h floor.map.now) dirs y (suc floor.w) leaving
        × LeavingTo (floor_of floor.w floor.h floor.map.now) dirs (number floor.w 0 y) masks.old }
    ensures { LeavingTo (floor_on floor.entry) dirs (number floor.entry.w 0 (y + 1)) masks.new }
{
    let n = floor.w + 1;
    let first = floor::vertex_at(floor.w, floor.h, 0, y);
    masks[first.0..first.0 + n].copy_from_slice(&leaving[..n]);
}

// Stores the masks of the moves that leave each vertex. The windows of a line are read once, and kept for the rows
// above and below.
fn fill_leaving(floor: FloorPlan<'_>, dirs: Directions, windows: [u32; 16], masks: &mut [u32])
    requires { Listed dirs × WindowsTo dirs 16 windows × (length masks.old ≡ vertices floor.w floor.h) }
    ensures { LeavingTo (floor_on floor.entry) dirs (vertices floor.entry.w floor.entry.h) masks.new }
{
    let mut above = window_row(floor, 0, windows);
    let mut here = above;
    for y in 0..floor.h + 1 {
        let below = window_row(floor, y + 1, windows);
        let leaving = leaving_between(floor, dirs, y, windows, above, here, below);
        store_row(floor, dirs, y, leaving, masks);
        above = here;
        here = below;
    }
}

// The direction opposite to that of move m: half a turn is eight directions on or back, so that bit 3 is turned over.
#[tactic(auto, using(crate::proofs::Tables::tables))]
fn turned_dir(dirs: Directions, m: usize) -> usize
    requires { Listed dirs × (m < dirs.count) }
    ensures { (result ≡ turned_dir dirs m) × (result < dir_count) }
{
    moves::dir_at(dirs, m) ^ 8
}

// The mask without bit k.
fn without(mask: u32, k: usize) -> u32
    requires { k < dir_count }
    ensures { WithoutBit k mask result }
{
    let bit: u32 = 1 << k;
    mask ^ (mask & bit)
}

// At the vertex to which move m leads from (x, y), clears the bit of the move that leads back.
#[tactic(auto, using(crate::proofs::Tables::tables))]
fn clear_back(w: usize, h: usize, dirs: Directions, x: usize, y: usize, m: usize, masks: &mut [u32])
    requires { OnFloor w h x y × Listed dirs × (m < dirs.count) × (length masks.old ≡ vertices w h) }
    ensures { ClearsMove w h dirs x y m masks.old masks.new }
{
    let t = moves::move_at(dirs, m);
    let Some(u) = moves::step_from(w, h, x, y, t.dx, t.dy) else {
        return;
    };
    let at = u.0;
    masks[at] = without(masks[at], turned_dir(dirs, m));
}

// Clears the bit of every move of a table, of N directions, that leads to (x, y). The number and the table are
// constants where it is called.
fn clear_table<const N: usize>(
    w: usize,
    h: usize,
    table: Directions,
    x: usize,
    y: usize,
    masks: &mut [u32],
)
    requires { OnFloor w h x y × Listed table × (table.count ≡ N) × (length masks.old ≡ vertices w h) }
    ensures { ClearsTo w h table x y table.count masks.old masks.new }
{
    for m in 0..N {
        clear_back(w, h, table, x, y, m, masks);
    }
}

// Clears the bit of every move that leads to (x, y): of the sixteen for a neighbourhood of 16, else of the eight.
#[tactic(auto, using(crate::proofs::Tables::tables))]
fn clear_to(w: usize, h: usize, dirs: Directions, x: usize, y: usize, masks: &mut [u32])
    requires { OnFloor w h x y × (length masks.old ≡ vertices w h) }
    ensures { ClearsTo w h (table_of dirs) x y (table_of dirs).count masks.old masks.new }
{
    if dirs.count == 16 {
        clear_table::<16>(w, h, SIXTEEN_DIRS, x, y, masks);
    } else {
        clear_table::<8>(w, h, EIGHT_DIRS, x, y, masks);
    }
}

// Clears the bits of the moves that lead to (x, y) where it is a pinch.
fn clear_at(floor: FloorPlan<'_>, dirs: Directions, x: usize, y: usize, masks: &mut [u32])
    requires { OnFloor floor.w floor.h x y × Listed dirs
        × Cleared (floor_of floor.w floor.h floor.map.now) dirs (number floor.w x y) masks.old }
    ensures { Cleared (floor_on floor.entry) dirs (number floor.entry.w (x + 1) y) masks.new }
{
    let v = floor::vertex_at(floor.w, floor.h, x, y);
    if marks_pinch(masks[v.0]) {
        clear_to(floor.w, floor.h, dirs, x, y, masks);
    }
}

// Clears the bits of the moves that lead to pinches of row y, where those to pinches of the rows before it are cleared.
fn clear_row(floor: FloorPlan<'_>, dirs: Directions, y: usize, masks: &mut [u32])
    requires { (y ≤ floor.h) × Listed dirs
        × Cleared (floor_of floor.w floor.h floor.map.now) dirs (number floor.w 0 y) masks.old }
    ensures { Cleared (floor_on floor.entry) dirs (number floor.entry.w 0 (y + 1)) masks.new }
{
    for x in 0..floor.w + 1 {
        clear_at(floor, dirs, x, y, masks);
    }
}

// Fills `masks` with the masks of the open moves of all vertices: the moves that leave a vertex, but for those that
// lead to a pinch.
pub fn fill_masks(floor: FloorPlan<'_>, dirs: Directions, masks: &mut [u32])
    requires { Listed dirs × (length masks.old ≡ vertices floor.w floor.h) }
    ensures { OpenMasks (floor_on floor.entry) dirs masks.new }
{
    let windows = window_masks(dirs);
    fill_leaving(floor, dirs, windows, masks);
    for y in 0..floor.h + 1 {
        clear_row(floor, dirs, y, masks);
    }
}
