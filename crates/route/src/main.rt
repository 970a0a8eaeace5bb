// The program: reads a stream of records from standard input, plans the jobs on its floor and writes their lines
// to standard output, each job's as soon as its record is read.
//
// What it writes is `program_text` of the crate of that name. The bytes read so far, the number of bytes written so far and the
// cursor go from function to function. `write_some`, the only function that writes, asks that its bytes are what stands
// at that place of the text, whatever the rest of the input is, and a run ends with all of the text written. So nothing
// is written before it is sure, and `Cursor::is_settled` says where it is: the program reads on only where some byte to
// come could change what stands at the cursor.
//
// No contract can name the bytes that a read of standard input or a write to standard output moves: that the buffer
// holds what was read, and that a write moves what is lent to it, is not proved.
#![tactic(auto)]

ghost use Rattle.std.specs.Prelude.{◌≡◌, ◌*◌, ◌≤◌, ◌<◌, length, IfOk};
ghost use Rattle.floor.specs.Floor.{map_length, vertices};
ghost use Rattle.planner.specs.Plan.{slices_of};
ghost use Rattle.program_text.specs.Contract.{SmallFloor, Ready, TurnWritten};
ghost use Rattle.records.specs.Settled.{longest, Reached};
ghost use Rattle.route.specs.Sent.{Sure, Next, Due, turn_room, SentTurn};
ghost use Rattle.route.specs.Reads.{ReadMore, ReadFor, MapRead, BadRead, Ended};

use floor::FloorPlan;
use program_text::Turn;
use records::lines;
use records::stream::{Cursor, MapRecord, Record};
use std::io::{Error, ErrorKind, Read, Stdin, Stdout, Write};
use std::{io, thread};

// How often a read or a write is tried again before it counts as failed: for years, at a microsecond each.
const MOST_TRIES: usize = 1000000000000000;

// What is read of the input: so many bytes, at the start of the buffer, and whether that is all: the input has ended,
// or can't be read.
#[derive(Clone, Copy)]
struct Reading {
    count: usize,
    over: bool,
}

// How far the program is: the bytes read of the input, whether they are all of it, and how many bytes of the program's
// text are written.
#[derive(Clone, Copy)]
struct Spot<'a> {
    s: &'a [u8],
    over: bool,
    written: usize,
}

// A part of the text could not be written, which ends the run.
#[derive(Clone, Copy)]
struct Cut;

// After a turn: so many bytes of the program's text are written, and where it goes on; nowhere where they are all.
#[derive(Clone, Copy)]
struct Sent {
    written: usize,
    next: Option<Cursor>,
}

// The end of a run: what is read of the input, and all of the text is written, so many bytes.
#[derive(Clone, Copy)]
struct Whole {
    reading: Reading,
    written: usize,
}

// Whether a read or a write that failed is to be tried again: a signal came, or the descriptor is one that does not
// block and is not ready. Then other processes run first. (docs/DECISIONS.md says why it does not sleep.)
fn tries_again(error: &Error) -> bool {
    match error.kind() {
        ErrorKind::Interrupted => true,
        ErrorKind::WouldBlock => {
            thread::yield_now();
            true
        }
        _ => false,
    }
}

// Writes some of `part`, which stands at the spot in the program's text, whatever follows the bytes read, and answers
// how many bytes the system took. No other function writes.
fn write_some(stdout: Stdout, spot: Spot<'_>, part: &[u8]) -> io::Result<usize>
    requires { Next spot.s.now spot.over spot.written part.now }
    ensures { IfOk result (λ n. n ≤ length part.now) }
{
    let mut to = stdout;
    to.write(part)
}

// Writes all of `part`.
fn write_next(stdout: Stdout, spot: Spot<'_>, part: &[u8]) -> Result<(), Cut>
    requires { Next spot.s.now spot.over spot.written part.now }
{
    // Kept: no plainer, since a write takes as many bytes as it likes, and only a failed one counts as a try.
    let mut done: usize = 0;
    let mut tries: usize = 0;
    while done < part.len() {
        let at = Spot {
            written: spot.written + done,
            ..spot
        };
        match write_some(stdout, at, &part[done..]) {
            Ok(0) => return Err(Cut),
            Ok(put) => done += put,
            Err(error) => {
                if MOST_TRIES <= tries || !tries_again(&error) {
                    return Err(Cut);
                }
                tries += 1;
            }
        }
    }
    Ok(())
}

// Reads what there is of the input into `buf`, and answers how many bytes, 0 at its end. A read that fails ends the
// input.
fn read_some(stdin: Stdin, buf: &mut [u8]) -> usize
    ensures { result ≤ length buf.new }
{
    let mut from = stdin;
    for _ in 0..MOST_TRIES {
        match from.read(buf) {
            Ok(got) => return got,
            Err(error) => {
                if !tries_again(&error) {
                    return 0;
                }
            }
        }
    }
    0
}

// Reads on, past the first n bytes of the buffer, which has room for more.
fn read_more(stdin: Stdin, input: &mut [u8], n: usize) -> Reading
    requires { n < length input.old }
    ensures { ReadMore input.old n input.new result }
{
    let got = read_some(stdin, &mut input[n..]);
    Reading {
        count: n + got,
        over: got == 0,
    }
}

// Reads on until what stands at the cursor is sure. The buffer never fills before that.
fn read_for(stdin: Stdin, input: &mut [u8], first: Reading, c: Cursor) -> Reading
    requires { (first.count ≤ length input.old) × (length input.old ≡ longest) × Reached c }
    ensures { ReadFor input.old first input.new result c }
{
    let mut r = first;
    loop {
        if r.over {
            return r;
        }
        let n = r.count;
        if c.is_settled(&input[..n]) {
            return r;
        }
        r = read_more(stdin, input, n);
    }
}

// Writes the text of the turn t, which stands at the start of `out`.
fn send_turn(
    stdout: Stdout,
    spot: Spot<'_>,
    c: Cursor,
    floor: FloorPlan<'_>,
    t: Turn,
    out: &[u8],
) -> Result<Sent, Cut>
    requires { Due spot.s.now spot.over floor.w floor.h floor.map.now c spot.written × Sure spot.s.now spot.over c
        × TurnWritten spot.s.now floor.w floor.h floor.map.now c t out.now × (length out.now ≤ turn_room) }
    ensures { SentTurn spot.entry.s.now spot.entry.over
        floor.entry.w floor.entry.h floor.entry.map.now c result }
{
    let n = t.bytes;
    write_next(stdout, spot, &out[..n])?;
    Ok(Sent {
        written: spot.written + n,
        next: t.next,
    })
}

// Takes one turn and writes its text.
// Kept: no plainer, since planner::finish takes the slices one by one.
fn write_turn(
    stdout: Stdout,
    spot: Spot<'_>,
    c: Cursor,
    floor: FloorPlan<'_>,
    d: &mut [u32],
    e: &mut [u32],
    f: &mut [u64],
    back: &mut [u64],
    route: &mut [u16],
    next: &mut [u16],
    work: &mut [u32],
    kept: &mut [u16],
    out: &mut [u8],
) -> Result<Sent, Cut>
    requires { Due spot.s.now spot.over floor.w floor.h floor.map.now c spot.written × Sure spot.s.now spot.over c
        × Ready floor.w floor.h floor.map.now d.old
        (slices_of e.old f.old back.old route.old next.old work.old) kept.old out.old
        × (length out.old ≤ turn_room) }
    ensures { SentTurn spot.entry.s.now spot.entry.over
        floor.entry.w floor.entry.h floor.entry.map.now c result }
{
    let t = program_text::take_turn(
        spot.s, c, floor, d, e, f, back, route, next, work, kept, out,
    );
    send_turn(stdout, spot, c, floor, t, out)
}

// Lends the arrays for one turn: a place for each of the at most 32 * 32 vertices, and room for the lines of a job. The
// costs d are the caller's: they are kept from turn to turn.
fn lend_turn(
    stdout: Stdout,
    spot: Spot<'_>,
    c: Cursor,
    floor: FloorPlan<'_>,
    d: &mut [u32],
) -> Result<Sent, Cut>
    requires { Due spot.s.now spot.over floor.w floor.h floor.map.now c spot.written × Sure spot.s.now spot.over c
        × SmallFloor floor.w floor.h floor.map.now × (length d.old ≡ vertices floor.w floor.h) }
    ensures { SentTurn spot.entry.s.now spot.entry.over
        floor.entry.w floor.entry.h floor.entry.map.now c result }
{
    let v = floor::vertex_count(floor.w, floor.h);
    let z = 4 * v;
    let mut e = [0u32; 1024];
    let mut f = [0u64; 1024];
    let mut back = [0u64; 1024];
    let mut route = [0u16; 1024];
    let mut next = [0u16; 1024];
    let mut work = [0u32; 4096];
    let mut kept = [0u16; 1024];
    let mut out = [0u8; 6307];
    write_turn(
        stdout,
        spot,
        c,
        floor,
        d,
        &mut e[..v],
        &mut f[..v],
        &mut back[..v],
        &mut route[..v],
        &mut next[..v],
        &mut work[..z],
        &mut kept[..v],
        &mut out,
    )
}

// The jobs that follow the map m, with a slice for its cells and one for the costs from a start, which the next job may
// share.
fn run_jobs(
    stdin: Stdin,
    stdout: Stdout,
    input: &mut [u8],
    first: Reading,
    m: MapRecord,
    past: Cursor,
    map: &mut [u8],
    d: &mut [u32],
) -> Result<Whole, Cut>
    requires { MapRead input.old first m past × (length map.old ≡ map_length (m.wide * m.high))
        × (length d.old ≡ vertices m.wide m.high) }
    ensures { Ended input.new result }
{
    let n = first.count;
    program_text::copy_cells(&input[..n], m, map);
    let floor = FloorPlan {
        w: m.wide,
        h: m.high,
        map,
    };
    let mut r = first;
    let mut c = past;
    let mut written: usize = 0;
    loop {
        r = read_for(stdin, input, r, c);
        let k = r.count;
        let spot = Spot {
            s: &input[..k],
            over: r.over,
            written,
        };
        let sent = lend_turn(stdout, spot, c, floor, d)?;
        written = sent.written;
        let Some(next) = sent.next else {
            return Ok(Whole {
                reading: r,
                written,
            });
        };
        c = next;
    }
}

// Lends the arrays for the cells and for the costs. The first is of 31 * 31 bytes; the packed map takes its first 121
// at most.
fn lend_map(
    stdin: Stdin,
    stdout: Stdout,
    input: &mut [u8],
    first: Reading,
    m: MapRecord,
    past: Cursor,
) -> Result<Whole, Cut>
    requires { MapRead input.old first m past }
    ensures { Ended input.new result }
{
    let n = floor::map_length(m.wide, m.high);
    let v = floor::vertex_count(m.wide, m.high);
    let mut map = [0u8; 961];
    let mut d = [0u32; 1024];
    run_jobs(
        stdin,
        stdout,
        input,
        first,
        m,
        past,
        &mut map[..n],
        &mut d[..v],
    )
}

// Writes the line of a bad record at place k, where the map is due.
fn write_bad(
    stdout: Stdout,
    input: &[u8],
    first: Reading,
    k: usize,
    line: &mut [u8],
) -> Result<Whole, Cut>
    requires { BadRead input.now first k × (64 ≡ length line.old) }
    ensures { Ended input.now result }
{
    let n = lines::put_bad(line, 0, k);
    let count = first.count;
    let spot = Spot {
        s: &input[..count],
        over: first.over,
        written: 0,
    };
    write_next(stdout, spot, &line[..n])?;
    Ok(Whole {
        reading: first,
        written: n,
    })
}

// The whole run, with a buffer for the input. What stands first is a map or a bad record.
fn run(stdin: Stdin, stdout: Stdout, input: &mut [u8]) -> Result<Whole, Cut>
    requires { length input.old ≡ longest }
    ensures { Ended input.new result }
{
    let c = Cursor::new();
    let first = read_for(
        stdin,
        input,
        Reading {
            count: 0,
            over: false,
        },
        c,
    );
    let n = first.count;
    match c.step(&input[..n]) {
        Ok(Some((Record::Map(m), past))) => lend_map(stdin, stdout, input, first, m, past),
        Ok(None) => Ok(Whole {
            reading: first,
            written: 0,
        }),
        Ok(Some((Record::Job(_), _))) => Ok(Whole {
            reading: first,
            written: 0,
        }),
        Err(bad) => {
            let mut line = [0u8; 64];
            write_bad(stdout, input, first, bad.at, &mut line)
        }
    }
}

// The buffer holds as much of the input as can matter: the longest map, 1,000 jobs and one byte more.
fn main(rt: HostRuntime) {
    let mut input = [0u8; 7966];
    let _ = run(rt.stdin(), rt.stdout(), &mut input);
}
