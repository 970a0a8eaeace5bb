// Closures of a floor: a table of sixteen slots, each a rectangle or free. Post, strike, and the working map.
#![tactic(auto)]

ghost use Rattle.std.specs.Prelude.{◌≡◌, ◌<◌, length, Ok, Some};
ghost use Rattle.floor.specs.Refusals.{floor_shape};
ghost use Rattle.closures.specs.Plain.{within, post_answer, strike_shape, working_map};
ghost use Rattle.closures.specs.Table.{held, with_slot, empty_table, Posts, Strikes, Writes};
ghost use Rattle.closures.specs.Known.{MapsLent, CellsOnFloor, slot_found, clipped, Marked};

use floor::Refusal;

// A rectangle of cells: its first column and row, and how many columns and rows it has.
#[derive(Clone, Copy)]
pub struct Rectangle {
    pub column: usize,
    pub row: usize,
    pub columns: usize,
    pub rows: usize,
}

// A table of sixteen closures for a floor of fixed size, its sides in cells. A slot with no rectangle is free.
#[derive(Clone, Copy)]
pub struct Closures {
    pub width: usize,
    pub height: usize,
    pub slots: [Option<Rectangle>; 16],
}

// The table after an operation, with the answer.
#[derive(Clone, Copy)]
pub struct After<A> {
    pub table: Closures,
    pub answer: Result<A, Refusal>,
}

// The empty table for a floor of w by h cells. Every call on a table with bad sides is refused with 1.
pub fn empty(w: usize, h: usize) -> Closures
    ensures { result ≡ empty_table w h }
{
    Closures {
        width: w,
        height: h,
        slots: [None; 16],
    }
}

// The rectangle is not empty and does not leave the floor. Differences are compared, since sums could wrap.
#[tactic(auto, unfolding(crate::specs::Plain::within))]
fn is_within(w: usize, h: usize, r: Rectangle) -> bool
    ensures { result ≡ within w h r }
{
    1 <= r.columns
        && 1 <= r.rows
        && r.columns <= w
        && r.column <= w - r.columns
        && r.rows <= h
        && r.row <= h - r.rows
}

// The lowest free slot, if there is one.
// Kept: tried, the proof did not close: `position` over an array of options.
fn lowest_free(table: Closures) -> Option<usize>
    ensures { result ≡ slot_found (held table) }
{
    for (k, slot) in table.slots.iter().enumerate() {
        if slot.is_none() {
            return Some(k);
        }
    }
    None
}

// The table with `s` in slot k. No other function changes a slot.
fn with_slot(table: Closures, k: usize, s: Option<Rectangle>) -> Closures
    requires { k < 16 }
    ensures { result ≡ with_slot table k s }
{
    let mut changed = table;
    changed.slots[k] = s;
    changed
}

// The slot in which r is posted, or refusal 1, 12 or 13.
#[tactic(auto, unfolding(crate::specs::Plain::post_shape))]
fn post_slot(table: Closures, r: Rectangle) -> Result<usize, Refusal>
    ensures { result ≡ post_answer table.width table.height (held table) r }
{
    floor::sides_shape(table.width, table.height)?;
    if !is_within(table.width, table.height, r) {
        return Err(Refusal::ClosureBounds);
    }
    lowest_free(table).ok_or(Refusal::SlotsFull)
}

// The rectangle r posted: it stands in the lowest free slot, and that slot is the answer. A refusal, 1, 12 or 13,
// leaves the table as it was.
pub fn posted(table: Closures, r: Rectangle) -> After<usize>
    ensures { Posts table r result.answer result.table }
{
    match post_slot(table, r) {
        Ok(k) => After {
            table: with_slot(table, k, Some(r)),
            answer: Ok(k),
        },
        Err(why) => After {
            table,
            answer: Err(why),
        },
    }
}

// Refusals 1 and 14 of striking slot k.
#[tactic(auto, unfolding(crate::specs::Plain::strike_shape))]
fn strike_shape(table: Closures, k: usize) -> Result<(), Refusal>
    ensures { result ≡ strike_shape table.width table.height (held table) k }
{
    floor::sides_shape(table.width, table.height)?;
    if 15 < k || table.slots[k].is_none() {
        return Err(Refusal::SlotEmpty);
    }
    Ok(())
}

// Slot k struck: it is free. A refusal, 1 or 14, leaves the table as it was.
pub fn struck(table: Closures, k: usize) -> After<()>
    ensures { Strikes table k result.answer result.table }
{
    match strike_shape(table, k) {
        Ok(()) => After {
            table: with_slot(table, k, None),
            answer: Ok(()),
        },
        Err(why) => After {
            table,
            answer: Err(why),
        },
    }
}

// Blocks the cells of a rectangle, row after row, in the map of a floor that has all of them.
// Kept: no plainer, since a floor plan lends its map to be read, and this one is written: w and h apart.
fn mark(r: Rectangle, w: usize, h: usize, work: &mut [u8])
    requires { (floor_shape w h work.old ≡ Ok tt) × CellsOnFloor r w h }
    ensures { Marked (Some r) w h work.old work.new }
{
    for j in r.row..r.row + r.rows {
        floor::block_cells(work, floor::cell_at(w, r.column, j), r.columns);
    }
}

// The part of a rectangle that lies on a floor of width w and height h.
fn clip(r: Rectangle, w: usize, h: usize) -> Rectangle
    ensures { result ≡ clipped w h r }
{
    let column = r.column.min(w);
    let row = r.row.min(h);
    Rectangle {
        column,
        row,
        columns: r.columns.min(w - column),
        rows: r.rows.min(h - row),
    }
}

// Blocks the cells of the closure that a slot holds, if it holds one. A table that was not made by `post` may hold a
// rectangle that leaves the floor: its part on the floor is blocked.
fn mark_slot(slot: Option<Rectangle>, w: usize, h: usize, work: &mut [u8])
    requires { floor_shape w h work.old ≡ Ok tt }
    ensures { Marked slot w h work.old work.new }
{
    if let Some(r) = slot {
        mark(clip(r, w, h), w, h, work);
    }
}

// Copies a map.
// Kept: what may not change: by include/lurfanzi.h the library takes memcpy and memset of C's library alone, and
// `copy_from_slice` takes memmove.
fn copy_map(base: &[u8], map: &mut [u8])
    requires { length map.old ≡ length base.now }
    ensures { map.new ≡ base.now }
{
    for at in 0..base.len() {
        map[at] = base[at];
    }
}

// Writes the base map with the cells of every closure of the table blocked.
fn mark_all(table: Closures, base: &[u8], work: &mut [u8])
    requires { MapsLent table base.now work.old }
    ensures { work.new ≡ working_map table.width table.height base.now (held table) }
{
    copy_map(base, work);
    for slot in table.slots {
        mark_slot(slot, table.width, table.height, work);
    }
}

// Writes the working map: a cell is blocked where it is in the base map or where any closure of the table covers it. A
// refusal, 1, 2, 3 or 6, writes nothing.
#[tactic(auto, unfolding(crate::specs::Plain::work_shape))]
pub fn working_map(table: Closures, base: &[u8], work: &mut [u8]) -> Result<(), Refusal>
    ensures { Writes table base.now work.old result work.new }
{
    floor::floor_shape(table.width, table.height, base)?;
    if work.len() != base.len() {
        return Err(Refusal::SliceLength);
    }
    mark_all(table, base, work);
    Ok(())
}

// Posts the rectangle r in the table that the caller lends: `posted`, in place.
pub fn post(table: &mut Closures, r: Rectangle) -> Result<usize, Refusal>
    ensures { Posts table.old r result table.new }
{
    let done = posted(*table, r);
    *table = done.table;
    done.answer
}

// Strikes slot k of the table that the caller lends: `struck`, in place.
pub fn strike(table: &mut Closures, k: usize) -> Result<(), Refusal>
    ensures { Strikes table.old k result table.new }
{
    let done = struck(*table, k);
    *table = done.table;
    done.answer
}
