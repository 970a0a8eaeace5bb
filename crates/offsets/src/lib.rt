// The moves as changes of a vertex number: the far end of an open move by the mask of its vertex, and the classes of
// moves of one cost.
#![tactic(auto)]

ghost use Rattle.std.specs.Prelude.{◌≡◌, true, ◌+◌, ◌<◌, ◌≤◌};
ghost use Rattle.moves.specs.Moves.{move_at};
ghost use Rattle.moves.specs.Table.{Listed, lawful_dirs};
ghost use Rattle.offsets.specs.Offsets.{offset_of, masked_end, Movable, shift_base, Shifts, by_shift, end_of};
ghost use Rattle.offsets.specs.Classes.{class_dir, class_for, classes_for, Classes};

use floor::Vertex;
use moves::{Directions, EIGHT_DIRS, Offset, SIXTEEN_DIRS};

// Added to each change of a vertex number in a list of shifts, so that none is negative.
pub const SHIFT_BASE: usize = 512;

// How many directions the two tables of moves have.
const DIRS: usize = 32;

// The number of classes of a neighbourhood; where it has fewer, the others are of no move.
pub const CLASSES: usize = 4;

// The number of directions in a quarter turn.
const QUARTER: usize = 4;

// Four moves of one cost, each a quarter turn after the one before: directions `dir + 4 * j` for j from 0 to 3. Cost 0
// stands for a class of no move.
#[derive(Clone, Copy)]
pub struct Class {
    pub dir: usize,
    pub cost: u32,
}

// By how much move m of a neighbourhood changes a vertex number.
fn offset_of(w: usize, dirs: Directions, m: usize) -> Offset
    requires { (w ≤ 127) × (lawful_dirs dirs ≡ true) × (m < dirs.count) }
    ensures { result ≡ offset_of w (move_at dirs m) }
{
    let t = moves::move_at(dirs, m);
    let x = moves::parts_of(t.dx);
    let y = moves::parts_of(t.dy);
    Offset {
        up: y.up * (w + 1) + x.up,
        down: y.down * (w + 1) + x.down,
    }
}

// The far end of direction k from v, by the mask of v's open moves and `shift`, the place of the direction in the list
// of `shifts_of`. A move that leads off the floor is shut. The caller reads the shift before the test: read after it,
// every call would be compiled to a branch.
pub fn open_end(mask: u32, v: Vertex, k: usize, shift: usize) -> Option<Vertex>
    requires { Movable mask v.0 k (by_shift shift) }
    ensures { result ≡ end_of (masked_end mask v.0 k (by_shift shift)) }
{
    if (mask >> k) % 2 == 1 {
        Some(Vertex(v.0 + shift - SHIFT_BASE))
    } else {
        None
    }
}

// SHIFT_BASE plus the change of a vertex number by move m of a neighbourhood. It is inlined in any case, so that the
// moves of a table fold.
#[inline(always)]
fn shift_of(w: usize, dirs: Directions, m: usize) -> usize
    requires { (w ≤ 127) × (lawful_dirs dirs ≡ true) × (m < dirs.count) }
    ensures { result + (offset_of w (move_at dirs m)).down ≡ shift_base + (offset_of w (move_at dirs m)).up }
{
    let by = offset_of(w, dirs, m);
    SHIFT_BASE + by.up - by.down
}

// The shifts of a table of N directions. The number is a constant of the function, and the table one where it is
// called: each of the two tables has a function of its own, of which the compiler writes the loop out move by move.
#[tactic(auto, using(masks::proofs::Tables::tables))]
fn table_shifts<const N: usize>(w: usize, table: Directions) -> [usize; DIRS]
    requires { (w ≤ 127) × Listed table × (table.count ≡ N) }
    ensures { Shifts w table result }
{
    let mut shifts = [0; DIRS];
    for m in 0..N {
        let k = moves::dir_at(table, m);
        shifts[k] = shift_of(w, table, m);
    }
    shifts
}

// For each direction of a neighbourhood, SHIFT_BASE plus the change of a vertex number by its move, on floors of width
// w. The directions of a neighbourhood of 4 are among the eight. A direction that the table does not have has 0.
#[tactic(auto, using(masks::proofs::Tables::tables))]
pub fn shifts_of(w: usize, dirs: Directions) -> [usize; DIRS]
    requires { (w ≤ 127) × Listed dirs }
    ensures { Shifts w dirs result }
{
    if dirs.count == 16 {
        table_shifts::<16>(w, SIXTEEN_DIRS)
    } else {
        table_shifts::<8>(w, EIGHT_DIRS)
    }
}

// Direction j of a class, for j from 0 to 3.
pub fn class_dir(class: Class, j: usize) -> usize
    requires { class_dir class j < 32 }
    ensures { result ≡ class_dir class j }
{
    class.dir + QUARTER * j
}

// The class of move m of a neighbourhood, with its three turns. The moves are in order of angle, so that past the first
// quarter of them each is a turn of an earlier one: the class is then of no move.
pub fn class_of(dirs: Directions, m: usize) -> Class
    requires { (lawful_dirs dirs ≡ true) × (m < dirs.count) }
    ensures { result ≡ class_for dirs m }
{
    if m < dirs.count / 4 {
        Class {
            dir: moves::dir_at(dirs, m),
            cost: moves::cost_at(dirs, m),
        }
    } else {
        Class { dir: 0, cost: 0 }
    }
}

// The classes of a neighbourhood, from the table: of the first move, of the one in the middle of a quarter turn, and of
// the other two. Where a quarter turn has four moves, these two cost the same; where it has fewer, they are classes of
// no move.
pub fn classes_of(dirs: Directions) -> [Class; CLASSES]
    requires { Listed dirs }
    ensures { Classes dirs result × (result ≡ classes_for dirs) }
{
    let middle = (dirs.count / 4 + 1) / 2;
    let first = class_of(dirs, 0);
    let second = class_of(dirs, middle);
    let third = class_of(dirs, 3 - middle);
    let fourth = class_of(dirs, 3);
    [first, second, third, fourth]
}
