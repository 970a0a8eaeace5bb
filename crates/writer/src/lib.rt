// Writing the program's input: one map record and job records into a lent buffer, with a writer that is passed by value
// and answered by each call: past the record, or at a refusal as it was handed in.
#![tactic(auto)]

ghost use Rattle.std.specs.Prelude.{◌≡◌, ◌+◌, ◌*◌, ◌≤◌, ◌<◌, length, Err};
ghost use Rattle.basics.specs.Lists.{tabulate};
ghost use Rattle.floor.specs.Floor.{cell_bytes};
ghost use Rattle.floor.specs.Plan.{floor_on};
ghost use Rattle.records.specs.Known.{Written};
ghost use Rattle.writer.specs.Records.{Job, job_of, map_bytes, job_bytes};
ghost use Rattle.writer.specs.Writing.{put_map, put_job, map_shape, room_shape, call_shape, fresh_writer};
ghost use Rattle.writer.specs.Writing.{Writes};
ghost use Rattle.writer.specs.Known.{MapFits, cell_byte, past_record};

use floor::{Cell, FloorPlan, Refusal};
use records::lines;

// The place of the next record in the buffer, and the number of that record: 0 for the map, k for job k. C passes this
// struct by value.
#[repr(C)]
#[derive(Clone, Copy)]
pub struct Writer {
    pub at: usize,
    pub due: usize,
}

// The writer after a call, and the answer of the call.
#[derive(Clone, Copy)]
pub struct AfterWrite {
    pub writer: Writer,
    pub answer: Result<(), Refusal>,
}

// The first refusal of 1 to 3 that applies to a map: a side that is not 1 to 31, the map's length, its unused bits.
#[tactic(auto, unfolding(crate::specs::Writing::map_shape, floor::specs::Refusals::sides_shape, floor::specs::Refusals::floor_shape))]
fn map_shape(w: usize, h: usize, map: &[u8]) -> Result<(), Refusal>
    ensures { result ≡ map_shape w h map.now }
{
    if 31 < w || 31 < h {
        return Err(Refusal::Size);
    }
    floor::floor_shape(w, h, map)
}

// Refusal 18 where a record of `size` bytes from place `at` on does not fit whole in a buffer of `room` bytes. It takes
// differences, since a writer may hold any numbers, and a sum of them could wrap.
#[tactic(auto, unfolding(crate::specs::Writing::room_shape))]
fn room_shape(at: usize, size: usize, room: usize) -> Result<(), Refusal>
    ensures { result ≡ room_shape at size room }
{
    if room < at || room - at < size {
        return Err(Refusal::NoRoom);
    }
    Ok(())
}

// The first refusal of 1, 2, 3, 20 and 18 that applies to writing a map into a buffer of `room` bytes.
#[tactic(auto, unfolding(crate::specs::Writing::call_shape))]
fn map_call_shape(
    writer: Writer,
    w: usize,
    h: usize,
    map: &[u8],
    room: usize,
) -> Result<(), Refusal>
    ensures { result ≡ call_shape writer (put_map w h map.now) room }
{
    map_shape(w, h, map)?;
    if writer.due != 0 {
        return Err(Refusal::OutOfTurn);
    }
    room_shape(writer.at, 4 + w * h, room)
}

// The first refusal of 20 and 18 that applies to writing a job, whatever its numbers, into a buffer of `room` bytes.
#[tactic(auto, unfolding(crate::specs::Writing::call_shape))]
fn job_call_shape(writer: Writer, room: usize) -> Result<(), Refusal>
    ensures { (j : Job) → result ≡ call_shape writer (put_job j) room }
{
    if writer.due < 1 || 1000 < writer.due {
        return Err(Refusal::OutOfTurn);
    }
    room_shape(writer.at, 7, room)
}

// The byte of a cell: 0 open, 1 blocked.
fn cell_byte(map: &[u8], c: Cell) -> u8
    requires { c.0 < 8 * length map.now }
    ensures { result ≡ cell_byte map.now c.0 }
{
    u8::from(floor::is_blocked(map, c))
}

// Writes the first `count` cells of a map, a byte for each, and answers the place after them.
fn put_cells(buf: &mut [u8], at: usize, map: &[u8], count: usize) -> usize
    requires { (count ≤ 8 * length map.now) × (at + count ≤ length buf.old) }
    ensures { Written buf.old at (tabulate count (cell_byte map.now)) buf.new result }
{
    for c in 0..count {
        buf[at + c] = cell_byte(map, Cell(c));
    }
    at + count
}

// Writes a map record and answers the place after it.
fn put_map_record(buf: &mut [u8], at: usize, floor: FloorPlan<'_>) -> usize
    requires { MapFits floor.w floor.h floor.map.now at buf.old }
    ensures { Written buf.old at (map_bytes floor.entry.w floor.entry.h (cell_bytes (floor_on floor.entry)))
        buf.new result }
{
    // Kept: no plainer, since `u8::try_from` of a side would answer a result that cannot fail.
    let head = [b'M', b'P', floor.w as u8, floor.h as u8];
    let cells = lines::put_text(buf, at, &head);
    put_cells(buf, cells, floor.map, floor.w * floor.h)
}

// Writes a job record and answers the place after it.
fn put_job_record(buf: &mut [u8], at: usize, nb: u8, a: u16, b: u16) -> usize
    requires { at + 7 ≤ length buf.old }
    ensures { Written buf.old at (job_bytes (job_of nb a b)) buf.new result }
{
    let [a_low, a_high] = a.to_le_bytes();
    let [b_low, b_high] = b.to_le_bytes();
    lines::put_text(buf, at, &[b'J', b'B', nb, a_low, a_high, b_low, b_high])
}

impl Writer {
    // A fresh writer: nothing is written, and the map is due.
    pub fn new() -> Self
        ensures { result ≡ fresh_writer }
    {
        Writer { at: 0, due: 0 }
    }

    // The writer past the record that it has written, which ends before place `next`, with the answer that it is good.
    fn past_record(self, next: usize) -> AfterWrite
        requires { self.due ≤ 1000 }
        ensures { result ≡ past_record self next }
    {
        AfterWrite {
            writer: Writer {
                at: next,
                due: self.due + 1,
            },
            answer: Ok(()),
        }
    }

    // This writer, with a refusal.
    fn refused(self, why: Refusal) -> AfterWrite
        ensures { (result.writer ≡ self) × (result.answer ≡ Err why) }
    {
        AfterWrite {
            writer: self,
            answer: Err(why),
        }
    }

    // Writes a map record of the floor of w by h cells with the packed map `map`: a byte for each cell. A refusal, 1,
    // 2, 3, 20 or 18, writes nothing and answers this writer.
    pub fn put_map(self, w: usize, h: usize, map: &[u8], buf: &mut [u8]) -> AfterWrite
        ensures { Writes self (put_map w h map.now) buf.old result buf.new }
    {
        match map_call_shape(self, w, h, map, buf.len()) {
            Ok(()) => {
                let next = put_map_record(buf, self.at, FloorPlan { w, h, map });
                self.past_record(next)
            }
            Err(why) => self.refused(why),
        }
    }

    // Writes a job record of any numbers. A refusal, 20 or 18, writes nothing and answers this writer.
    pub fn put_job(self, nb: u8, a: u16, b: u16, buf: &mut [u8]) -> AfterWrite
        ensures { Writes self (put_job (job_of nb a b)) buf.old result buf.new }
    {
        match job_call_shape(self, buf.len()) {
            Ok(()) => {
                let next = put_job_record(buf, self.at, nb, a, b);
                self.past_record(next)
            }
            Err(why) => self.refused(why),
        }
    }
}
