// The floor: cells and vertices, what a cell reads as, and the refusals over the shape of a floor and of an end.
#![tactic(auto)]

ghost use Rattle.std.specs.Prelude.{◌≡◌, suc, ◌+◌, ◌-◌, ◌*◌, ◌<◌, ◌≤◌, length, eqb, IfOk};
ghost use Rattle.basics.specs.Bounded.{pick};
ghost use Rattle.floor.specs.Floor.{cell_number, bit_at, map_length, stored_cells, floor_of};
ghost use Rattle.floor.specs.Known.{blocked_from};
ghost use Rattle.floor.specs.Floor.{blocked, vertices, number, column, row};
ghost use Rattle.floor.specs.Window.{WindowMap};
ghost use Rattle.floor.specs.Refusals.{answer_number, good_if, unused_clear, sides_shape, floor_shape, end_shape};
ghost use Rattle.floor.specs.Plan.{floor_on};

mod plan; // plan.rt: a floor plan

pub use plan::FloorPlan;

// The number of a cell: column + row * W.
#[derive(Clone, Copy, Debug, PartialEq, Eq)]
pub struct Cell(pub usize);

// The number of a vertex, a cell corner: column + row * (W + 1).
#[derive(Clone, Copy, Debug, PartialEq, Eq)]
pub struct Vertex(pub usize);

// Every refusal of rule 6.1, in the order of the numbers.
#[derive(Clone, Copy, Debug, PartialEq, Eq)]
pub enum Refusal {
    Size,
    MapLength,
    UnusedBit,
    Neighbourhood,
    End,
    SliceLength,
    NoRoute,
    TooMany,
    FalseSheet,
    NotJoined,
    Pinched,
    ClosureBounds,
    SlotsFull,
    SlotEmpty,
    SizesDiffer,
    LogLength,
    BadLogRecord,
    NoRoom,
    FalseChoice,
    OutOfTurn,
}

// The number of a refusal (rule 6.1).
impl From<Refusal> for u8 {
    ghost use Rattle.floor.specs.Refusals.{NumberOf};

    ghost from_gives = { NumberOf };

    fn from(r: Refusal) -> u8 {
        match r {
            Refusal::Size => 1,
            Refusal::MapLength => 2,
            Refusal::UnusedBit => 3,
            Refusal::Neighbourhood => 4,
            Refusal::End => 5,
            Refusal::SliceLength => 6,
            Refusal::NoRoute => 7,
            Refusal::TooMany => 8,
            Refusal::FalseSheet => 9,
            Refusal::NotJoined => 10,
            Refusal::Pinched => 11,
            Refusal::ClosureBounds => 12,
            Refusal::SlotsFull => 13,
            Refusal::SlotEmpty => 14,
            Refusal::SizesDiffer => 15,
            Refusal::LogLength => 16,
            Refusal::BadLogRecord => 17,
            Refusal::NoRoom => 18,
            Refusal::FalseChoice => 19,
            Refusal::OutOfTurn => 20,
        }
    }
}

// The number of an answer (rule 6.1): that of its refusal, 0 where there is none.
pub fn answer_number<A: Copy>(answer: Result<A, Refusal>) -> u8
    ensures { result ≡ answer_number answer }
{
    match answer {
        Ok(_) => 0,
        Err(r) => u8::from(r),
    }
}

// The cell in column i and row j.
pub fn cell_at(w: usize, i: usize, j: usize) -> Cell
    requires { (w ≤ 127) × (i ≤ 127) × (j ≤ 127) }
    ensures { result.0 ≡ cell_number w i j }
{
    Cell(j * w + i)
}

// The number of bytes of a map, a bit to a cell: cell c is bit c % 8, from the low end, of byte c / 8. Only this,
// `is_blocked`, `block_cell`, `window_map`, `store_cells` and `unused_clear` know how a map is stored.
pub fn map_length(w: usize, h: usize) -> usize
    requires { (w ≤ 127) × (h ≤ 127) }
    ensures { (result ≡ map_length (w * h)) × (result ≤ 2017) }
{
    (w * h).div_ceil(8)
}

// Whether a cell of the map is blocked.
pub fn is_blocked(map: &[u8], c: Cell) -> bool
    requires { c.0 < 8 * length map.now }
    ensures { result ≡ bit_at map.now c.0 }
{
    let at = c.0;
    (map[at / 8] >> (at % 8)) % 2 == 1
}

impl<'a> FloorPlan<'a> {
    // The plan of a floor that is not refused, or the first refusal of 1 to 3.
    pub fn new(w: usize, h: usize, map: &'a [u8]) -> Result<Self, Refusal>
        ensures answer { good_if result ≡ floor_shape w h map.now }
        ensures plan { IfOk result (λ p. (p.w ≡ w) × (p.h ≡ h) × (p.map.now ≡ map.now)) }
    {
        floor_shape(w, h, map)?;
        Ok(FloorPlan { w, h, map })
    }

    // The cell that has the vertex (x, y) as its lower right corner.
    pub fn cell_before(self, x: usize, y: usize) -> Cell
        requires { (1 ≤ x) × (x ≤ self.w) × (1 ≤ y) × (y ≤ self.h) }
        ensures { (result.0 ≡ cell_number self.entry.w (x - 1) (y - 1)) × (result.0 < 8 * length self.entry.map.now) }
    {
        cell_at(self.w, x - 1, y - 1)
    }

    // Whether the cell that has the vertex (x, y) as its lower right corner is blocked. A cell outside the floor is.
    pub fn blocked_at(self, x: usize, y: usize) -> bool
        ensures { result ≡ blocked (floor_on self.entry) x y }
    {
        if x == 0 || y == 0 || self.w < x || self.h < y {
            return true;
        }
        is_blocked(self.map, self.cell_before(x, y))
    }
}

// Blocks one cell of the map.
#[tactic(auto, using(crate::proofs::Blocking::block_one))]
fn block_cell(map: &mut [u8], c: Cell)
    requires { c.0 < 8 * length map.old }
    ensures { map.new ≡ blocked_from c.0 1 map.old }
{
    let at = c.0;
    let bit: u8 = 1 << (at % 8);
    map[at / 8] |= bit;
}

// The map of a floor of 2 by 2 cells, of which cell c is blocked where b has bit c.
pub fn window_map(b: u8) -> [u8; 1]
    ensures { WindowMap b result }
{
    [b]
}

// Blocks `count` cells of the map, from cell `first` on.
pub fn block_cells(map: &mut [u8], first: Cell, count: usize)
    requires { (first.0 + count ≤ 8 * length map.old) × (length map.old ≤ 2017) }
    ensures { map.new ≡ blocked_from first.0 count map.old }
{
    let from = first.0;
    for at in from..from + count {
        block_cell(map, Cell(at));
    }
}

// Blocks a cell of the map where its byte is not 0.
fn store_cell(map: &mut [u8], c: Cell, byte: u8)
    requires { c.0 < 8 * length map.old }
    ensures { map.new
        ≡ pick (eqb byte 0) map.old (blocked_from c.0 1 map.old) }
{
    if byte != 0 {
        block_cell(map, c);
    }
}

// Stores a map whose cells are given by a byte each, row by row, 0 open and 1 blocked.
pub fn store_cells(cells: &[u8], map: &mut [u8])
    requires { length map.old ≡ map_length (length cells.now) }
    ensures { map.new ≡ stored_cells cells.now }
{
    map.fill(0);
    for (at, byte) in cells.iter().enumerate() {
        store_cell(map, Cell(at), *byte);
    }
}

// The number of vertices, V.
pub fn vertex_count(w: usize, h: usize) -> usize
    requires { (w ≤ 127) × (h ≤ 127) }
    ensures { (result ≡ vertices w h) × (1 ≤ result) × (result ≤ 16384) }
{
    (h + 1) * (w + 1)
}

// The vertex in column x and row y.
pub fn vertex_at(w: usize, h: usize, x: usize, y: usize) -> Vertex
    requires { (w ≤ 127) × (h ≤ 127) × (x ≤ w) × (y ≤ h) }
    ensures { (result.0 ≡ number w x y) × (result.0 < vertices w h) }
{
    Vertex(y * (w + 1) + x)
}

// The column of a vertex.
pub fn column_of(w: usize, v: Vertex) -> usize
    requires { w ≤ 127 }
    ensures { (result ≡ column w v.0) × (result ≤ w) }
{
    v.0 % (w + 1)
}

// The row of a vertex.
pub fn row_of(w: usize, h: usize, v: Vertex) -> usize
    requires { (w ≤ 127) × (v.0 < vertices w h) }
    ensures { (result ≡ row w v.0) × (result ≤ h) }
{
    v.0 / (w + 1)
}

// Refusal 1: a side is not 1 to 127.
#[tactic(auto, unfolding(crate::specs::Refusals::sides_shape))]
pub fn sides_shape(w: usize, h: usize) -> Result<(), Refusal>
    ensures { result ≡ sides_shape w h }
{
    if w < 1 || 127 < w || h < 1 || 127 < h {
        return Err(Refusal::Size);
    }
    Ok(())
}

// Every bit of the map past its n cells is 0. Only the last byte has such bits, and where 8 divides n it has none.
fn unused_clear(map: &[u8], n: usize) -> bool
    requires { length map.now ≡ map_length n }
    ensures { result ≡ unused_clear n map.now }
{
    n % 8 == 0 || map[n / 8] >> (n % 8) == 0
}

// Refusals 1 to 3 of a floor, in order: the sides, the map's length, its unused bits.
#[tactic(auto, using(crate::proofs::Shapes::good_sides), unfolding(crate::specs::Refusals::floor_shape))]
pub fn floor_shape(w: usize, h: usize, map: &[u8]) -> Result<(), Refusal>
    ensures { result ≡ floor_shape w h map.now }
{
    sides_shape(w, h)?;
    if map.len() != map_length(w, h) {
        return Err(Refusal::MapLength);
    }
    if !unused_clear(map, w * h) {
        return Err(Refusal::UnusedBit);
    }
    Ok(())
}

// Refusal 5 of one end, on a floor whose sides are good: its number is V or more.
#[tactic(auto, unfolding(crate::specs::Refusals::end_shape))]
pub fn end_shape(w: usize, h: usize, v: usize) -> Result<(), Refusal>
    requires { (w ≤ 127) × (h ≤ 127) }
    ensures { result ≡ end_shape w h v }
{
    if v < vertex_count(w, h) {
        return Ok(());
    }
    Err(Refusal::End)
}
