// A closure table in plain memory, as a C caller lends it: 64 numbers, four for each of the sixteen slots. Each
// operation reads them as a table of `closures`, whose operations decide the answer; post and strike then store the
// four numbers of a slot.
#![tactic(auto)]

ghost use Rattle.std.specs.Prelude.{◌≡◌, ◌<◌};
ghost use Rattle.stored_closures.specs.Stored.{rectangle_of, stored_in, with_numbers};
ghost use Rattle.stored_closures.specs.Stored.{PostsIn, StrikesIn, WritesFrom};
ghost use Rattle.stored_closures.specs.Known.{Stands};

use closures::{Closures, Rectangle};
use floor::Refusal;
use std::array;

// The rectangle with these 32-bit numbers.
// Kept: no plainer, since `usize` has no `From<u32>`.
fn rectangle(column: u32, row: u32, columns: u32, rows: u32) -> Rectangle
    ensures { result ≡ rectangle_of column row columns rows }
{
    Rectangle {
        column: column as usize,
        row: row as usize,
        columns: columns as usize,
        rows: rows as usize,
    }
}

// The rectangle that slot k of the numbers holds, if it is not free.
#[tactic(auto, unfolding(crate::specs::Stored::stored_in))]
fn held_at(slots: &[u32; 64], k: usize) -> Option<Rectangle>
    requires { k < 16 }
    ensures { result ≡ stored_in slots.now k }
{
    let at = 4 * k;
    let columns = slots[at + 2];
    if columns == 0 {
        return None;
    }
    Some(rectangle(slots[at], slots[at + 1], columns, slots[at + 3]))
}

// The table of `closures` for which the numbers stand.
fn table_of(w: usize, h: usize, slots: &[u32; 64]) -> Closures
    ensures { Stands w h slots.now result }
{
    Closures {
        width: w,
        height: h,
        slots: array::from_fn(|k| held_at(slots, k)),
    }
}

// Stores four numbers in slot k.
#[tactic(auto, unfolding(crate::specs::Stored::with_numbers))]
fn store(slots: &mut [u32; 64], k: usize, column: u32, row: u32, columns: u32, rows: u32)
    requires { k < 16 }
    ensures { slots.new ≡ with_numbers slots.old k (rectangle_of column row columns rows) }
{
    let at = 4 * k;
    slots[at] = column;
    slots[at + 1] = row;
    slots[at + 2] = columns;
    slots[at + 3] = rows;
}

// Posts a rectangle: stores its numbers in the lowest free slot, and answers that slot. A refusal, 1, 12 or 13, changes
// nothing.
pub fn post(
    w: usize,
    h: usize,
    slots: &mut [u32; 64],
    column: u32,
    row: u32,
    columns: u32,
    rows: u32,
) -> Result<usize, Refusal>
    ensures { PostsIn w h slots.old (rectangle_of column row columns rows) result slots.new }
{
    let done = closures::posted(table_of(w, h, slots), rectangle(column, row, columns, rows));
    let k = done.answer?;
    store(slots, k, column, row, columns, rows);
    Ok(k)
}

// Strikes slot k: sets its four numbers to 0. A refusal, 1 or 14, changes nothing.
pub fn strike(w: usize, h: usize, slots: &mut [u32; 64], k: usize) -> Result<(), Refusal>
    ensures { StrikesIn w h slots.old k result slots.new }
{
    let done = closures::struck(table_of(w, h, slots), k);
    done.answer?;
    store(slots, k, 0, 0, 0, 0);
    Ok(())
}

// Writes the working map: blocked where the base map is, or where a closure that the numbers hold covers. A refusal, 1,
// 2, 3 or 6, writes nothing.
pub fn working_map(
    w: usize,
    h: usize,
    slots: &[u32; 64],
    base: &[u8],
    work: &mut [u8],
) -> Result<(), Refusal>
    ensures { WritesFrom w h slots.now base.now work.old result work.new }
{
    closures::working_map(table_of(w, h, slots), base, work)
}
