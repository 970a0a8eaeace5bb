// The moves: the two tables, the directions of a neighbourhood, the far end of a move, and whether a cell or a step is
// in its way.
#![tactic(auto)]

ghost use Rattle.std.specs.Prelude.{◌≡◌, true, ◌<◌, ◌≤◌, nat_abs, get_or};
ghost use Rattle.floor.specs.Plan.{floor_on};
ghost use Rattle.sight.specs.Sight.{unblocked};
ghost use Rattle.moves.specs.Moves.{
  moves,
  sixteen,
  no_move,
  move_of,
  dir_count,
  neighbourhood_of,
  dir_move,
  dir_at,
  move_at,
};
ghost use Rattle.moves.specs.Steps.{up, shifted, far_end_at, end_if, step_of};
ghost use Rattle.moves.specs.Table.{is_some};
ghost use Rattle.moves.specs.Table.{lawful_dirs, Short, narrow, OnFloor, parts_of, place_of};

use floor::{FloorPlan, Vertex};

// A move: its signed offsets in columns and rows, and its cost.
#[derive(Clone, Copy, Debug, PartialEq, Eq)]
pub struct Move {
    pub dx: i8,
    pub dy: i8,
    pub cost: u32,
}

// The directions that a neighbourhood has: `count` of them, from `first` on, each `stride` after the one before.
#[derive(Clone, Copy, Debug, PartialEq, Eq)]
pub struct Directions {
    pub first: usize,
    pub stride: usize,
    pub count: usize,
}

// A change of a number: by `up` less `down`.
#[derive(Clone, Copy, Debug, PartialEq, Eq)]
pub struct Offset {
    pub up: usize,
    pub down: usize,
}

// The table of eight moves (rule 3.1), direction by direction.
const MOVES: [Move; 8] = [
    Move {
        dx: 1,
        dy: 0,
        cost: 408,
    },
    Move {
        dx: 1,
        dy: 1,
        cost: 577,
    },
    Move {
        dx: 0,
        dy: 1,
        cost: 408,
    },
    Move {
        dx: -1,
        dy: 1,
        cost: 577,
    },
    Move {
        dx: -1,
        dy: 0,
        cost: 408,
    },
    Move {
        dx: -1,
        dy: -1,
        cost: 577,
    },
    Move {
        dx: 0,
        dy: -1,
        cost: 408,
    },
    Move {
        dx: 1,
        dy: -1,
        cost: 577,
    },
];

// The sixteen moves of rule 3.1, in order of angle: the eight and, between each two of them, their sum.
const SIXTEEN: [Move; 16] = [
    Move {
        dx: 1,
        dy: 0,
        cost: 1000,
    },
    Move {
        dx: 2,
        dy: 1,
        cost: 2236,
    },
    Move {
        dx: 1,
        dy: 1,
        cost: 1414,
    },
    Move {
        dx: 1,
        dy: 2,
        cost: 2236,
    },
    Move {
        dx: 0,
        dy: 1,
        cost: 1000,
    },
    Move {
        dx: -1,
        dy: 2,
        cost: 2236,
    },
    Move {
        dx: -1,
        dy: 1,
        cost: 1414,
    },
    Move {
        dx: -2,
        dy: 1,
        cost: 2236,
    },
    Move {
        dx: -1,
        dy: 0,
        cost: 1000,
    },
    Move {
        dx: -2,
        dy: -1,
        cost: 2236,
    },
    Move {
        dx: -1,
        dy: -1,
        cost: 1414,
    },
    Move {
        dx: -1,
        dy: -2,
        cost: 2236,
    },
    Move {
        dx: 0,
        dy: -1,
        cost: 1000,
    },
    Move {
        dx: 1,
        dy: -2,
        cost: 2236,
    },
    Move {
        dx: 1,
        dy: -1,
        cost: 1414,
    },
    Move {
        dx: 2,
        dy: -1,
        cost: 2236,
    },
];

// The directions of the table of eight, and of the table of sixteen.
pub const EIGHT_DIRS: Directions = Directions {
    first: 0,
    stride: 2,
    count: 8,
};

pub const SIXTEEN_DIRS: Directions = Directions {
    first: 16,
    stride: 1,
    count: 16,
};

// The directions of the neighbourhood with number n: 8 has the table of eight, 4 its cardinal directions, 16 the table
// of sixteen; no other number has any.
#[tactic(auto, unfolding(crate::specs::Moves::neighbourhood_of))]
pub fn directions_of(n: usize) -> Option<Directions>
    ensures { result ≡ neighbourhood_of n }
{
    match n {
        16 => Some(SIXTEEN_DIRS),
        8 => Some(EIGHT_DIRS),
        4 => Some(Directions {
            first: 0,
            stride: 4,
            count: 4,
        }),
        _ => None,
    }
}

// The direction, a number below 32, of move m of a neighbourhood.
#[tactic(auto, using(crate::proofs::Table::dir_listed))]
pub fn dir_at(dirs: Directions, m: usize) -> usize
    requires { (lawful_dirs dirs ≡ true) × (m < dirs.count) }
    ensures { (result ≡ dir_at dirs m) × (result < dir_count) }
{
    let first = dirs.first;
    let past = dirs.stride * m;
    first + past
}

// Move k of the eight.
// Kept: tried, misses the speed of `masks::fill_masks`, which takes twice the instructions where the table is indexed by a
// variable: its loops over the moves of a table are then not written out. So the moves are named one by one.
fn eight_move(k: usize) -> Move
    requires { k < 8 }
    ensures { result ≡ get_or moves k no_move }
{
    match k {
        0 => MOVES[0],
        1 => MOVES[1],
        2 => MOVES[2],
        3 => MOVES[3],
        4 => MOVES[4],
        5 => MOVES[5],
        6 => MOVES[6],
        _ => MOVES[7],
    }
}

// Move k of the sixteen.
// Kept: as `eight_move`, for the speed of `masks::fill_masks`.
fn sixteen_move(k: usize) -> Move
    requires { k < 16 }
    ensures { result ≡ get_or sixteen k no_move }
{
    match k {
        0 => SIXTEEN[0],
        1 => SIXTEEN[1],
        2 => SIXTEEN[2],
        3 => SIXTEEN[3],
        4 => SIXTEEN[4],
        5 => SIXTEEN[5],
        6 => SIXTEEN[6],
        7 => SIXTEEN[7],
        8 => SIXTEEN[8],
        9 => SIXTEEN[9],
        10 => SIXTEEN[10],
        11 => SIXTEEN[11],
        12 => SIXTEEN[12],
        13 => SIXTEEN[13],
        14 => SIXTEEN[14],
        _ => SIXTEEN[15],
    }
}

// The move of direction k: directions 0 to 15 have the eight moves, each at two of them, and directions 16 to 31 the
// sixteen.
fn dir_move(k: usize) -> Move
    requires { k < dir_count }
    ensures { result ≡ dir_move k }
{
    if k < 16 {
        eight_move(k / 2)
    } else {
        sixteen_move(k - 16)
    }
}

// Move m of a neighbourhood.
pub fn move_at(dirs: Directions, m: usize) -> Move
    requires { (lawful_dirs dirs ≡ true) × (m < dirs.count) }
    ensures { result ≡ move_at dirs m }
{
    dir_move(dir_at(dirs, m))
}

// The cost of move m of a neighbourhood.
pub fn cost_at(dirs: Directions, m: usize) -> u32
    requires { (lawful_dirs dirs ≡ true) × (m < dirs.count) }
    ensures { result ≡ (move_at dirs m).cost }
{
    move_at(dirs, m).cost
}

// How far up a signed offset goes: d, but 0 where d is below 0.
// Kept: tried, misses the speed of `masks::window_masks`: by `try_from`, `unsigned_abs` and `checked_add_signed` here, in
// `length_of` and in `shifted_by` it takes thirty times the instructions with eight moves, since none of them folds.
#[tactic(auto, unfolding(crate::specs::Steps::up))]
fn up_of(d: i8) -> usize
    requires { nat_abs d ≤ 2 }
    ensures { result ≡ up d }
{
    if d < 0 { 0 } else { d as usize }
}

// A signed offset as how far it goes up and how far down. Each part is worked out on its own: a choice between two
// offsets would keep the compiler from folding a constant offset before it inlines the function.
#[tactic(auto, using(crate::proofs::Signs::neg_up))]
pub fn parts_of(d: i8) -> Offset
    requires { nat_abs d ≤ 2 }
    ensures { result ≡ parts_of d }
{
    Offset {
        up: up_of(d),
        down: up_of(-d),
    }
}

// The length of a signed offset.
#[tactic(auto, unfolding(crate::specs::Table::offset_opened))]
fn length_of(d: i8) -> usize
    requires { nat_abs d ≤ 2 }
    ensures { result ≡ nat_abs d }
{
    let o = parts_of(d);
    o.up + o.down
}

// The coordinate a moved by d, where that is from 0 to n.
#[tactic(auto, unfolding(crate::specs::Table::offset_opened))]
fn shifted_by(n: usize, a: usize, d: i8) -> Option<usize>
    requires { (a ≤ n) × (n ≤ 127) × (nat_abs d ≤ 2) }
    ensures { result ≡ place_of (shifted n a d) }
{
    let o = parts_of(d);
    let sum = a + o.up;
    if sum < o.down || n + o.down < sum {
        return None;
    }
    Some(sum - o.down)
}

// The vertex to which the offsets of a move lead from (x, y), where it is on the floor.
#[tactic(auto, using(crate::proofs::Steps::place_inside), unfolding(crate::specs::Table::far_opened))]
pub fn step_from(w: usize, h: usize, x: usize, y: usize, dx: i8, dy: i8) -> Option<Vertex>
    requires { OnFloor w h x y × Short (move_of dx dy 0) }
    ensures { result ≡ step_of (far_end_at w h (move_of dx dy 0) x y) }
{
    let i = shifted_by(w, x, dx)?;
    let j = shifted_by(h, y, dy)?;
    Some(floor::vertex_at(w, h, i, j))
}

// Whether a move from (x, y) leads to a vertex of the floor with no cell and no step in the way: the test of an open
// move, without the pinches at its two ends. The distance between its ends is taken from the offsets, so that where
// these are constants only the cells have to be read.
#[tactic(auto, unfolding(crate::specs::Table::far_opened))]
pub fn is_unblocked(floor: FloorPlan<'_>, x: usize, y: usize, dx: i8, dy: i8) -> bool
    requires { OnFloor floor.w floor.h x y × Short (move_of dx dy 0) × (narrow (move_of dx dy 0) ≡ true) }
    ensures { result ≡ is_some (end_if unblocked (floor_on floor.entry) (move_of dx dy 0) x y) }
{
    let Some(to) = step_from(floor.w, floor.h, x, y, dx, dy) else {
        return false;
    };
    let i = floor::column_of(floor.w, to);
    let j = floor::row_of(floor.w, floor.h, to);
    sight::is_unblocked(floor, x, y, i, j, length_of(dx), length_of(dy))
}
