// Reading the byte stream: the step of a cursor, which is passed by value, answers the record found and the cursor past
// it.
ghost use Rattle.std.specs.Prelude.{◌≡◌, ◌+◌, ◌*◌, ◌<◌, ◌≤◌, length, get_or, ℕ};
ghost use Rattle.basics.specs.Bounded.{every};
ghost use Rattle.records.specs.Format.{word_at, marked_at, map_side, cell_byte, map_at, job_at, record_at, start_cursor};
ghost use Rattle.records.specs.Settled.{MapSettled, JobSettled, Settled, Decides};

// The place of the next record, and its number: 0 for the map, k for job k.
#[derive(Clone, Copy)]
pub struct Cursor {
    pub at: usize,
    pub due: usize,
}

// A map of `wide` by `high` cells, whose bytes start at place `cells`.
#[derive(Clone, Copy)]
pub struct MapRecord {
    pub wide: usize,
    pub high: usize,
    pub cells: usize,
}

// A job, numbered from 1, with its ends as vertex numbers.
#[derive(Clone, Copy)]
pub struct JobRecord {
    pub number: usize,
    pub neighbourhood: usize,
    pub start: usize,
    pub end: usize,
}

// A record of the stream.
#[derive(Clone, Copy)]
pub enum Record {
    Map(MapRecord),
    Job(JobRecord),
}

// A bad record, given by the place where it starts.
#[derive(Clone, Copy)]
pub struct BadRecord {
    pub at: usize,
}

// Whether the two bytes at `at` are a and b.
pub fn marked(s: &[u8], at: usize, a: u8, b: u8) -> bool
    requires { at + 2 ≤ length s.now }
    ensures { result ≡ marked_at s.now at a b }
{
    s[at] == a && s[at + 1] == b
}

// The byte at `at`.
pub fn byte(s: &[u8], at: usize) -> usize
    requires { at < length s.now }
    ensures { (result ≡ get_or s.now at 0) × (result < 256) }
{
    usize::from(s[at])
}

// The 16-bit little-endian number at `at`.
pub fn word(s: &[u8], at: usize) -> usize
    requires { at + 2 ≤ length s.now }
    ensures { (result ≡ word_at s.now at) × (result < 65536) }
{
    byte(s, at) + 256 * byte(s, at + 1)
}

// Whether a side of the map is 1 to 31.
fn side_good(n: usize) -> bool
    ensures { result ≡ map_side n }
{
    1 <= n && n <= 31
}

// Whether each of the `count` cells that start at `from` is 0 or 1.
fn cells_good(s: &[u8], from: usize, count: usize) -> bool
    requires { from + count ≤ length s.now }
    ensures { result ≡ every count (cell_byte s.now from) }
{
    s[from..from + count].iter().all(|cell| *cell <= 1)
}

// The map record at `at`, with the cursor past it.
#[tactic(auto, unfolding(crate::specs::Format::map_at, crate::specs::Format::good_map))]
fn read_map(s: &[u8], at: usize) -> Result<(Record, Cursor), BadRecord>
    ensures { result ≡ map_at s.now at }
{
    if s.len() < at || s.len() - at < 4 || !marked(s, at, b'M', b'P') {
        return Err(BadRecord { at });
    }
    let wide = byte(s, at + 2);
    let high = byte(s, at + 3);
    if !side_good(wide) || !side_good(high) {
        return Err(BadRecord { at });
    }
    let count = wide * high;
    let cells = at + 4;
    if s.len() - cells < count || !cells_good(s, cells, count) {
        return Err(BadRecord { at });
    }
    Ok((
        Record::Map(MapRecord { wide, high, cells }),
        Cursor {
            at: cells + count,
            due: 1,
        },
    ))
}

// The record of job `number` at `at`, with the cursor past it.
#[tactic(auto, unfolding(crate::specs::Format::job_at, crate::specs::Format::good_job))]
fn read_job(s: &[u8], at: usize, number: usize) -> Result<(Record, Cursor), BadRecord>
    requires { number ≤ 1000 }
    ensures { result ≡ job_at s.now at number }
{
    if s.len() < at || s.len() - at < 7 || !marked(s, at, b'J', b'B') {
        return Err(BadRecord { at });
    }
    Ok((
        Record::Job(JobRecord {
            number,
            neighbourhood: byte(s, at + 2),
            start: word(s, at + 3),
            end: word(s, at + 5),
        }),
        Cursor {
            at: at + 7,
            due: number + 1,
        },
    ))
}

// Whether the bytes s settle the record at `at`, where the map is due: whatever follows them, the answer of `read_map`
// is the same. A wrong byte settles it, and so does a whole record.
fn map_settled(s: &[u8], at: usize) -> bool
    ensures { Decides result (MapSettled s.now at) }
{
    // Kept: no plainer, since the answers alternate: a missing byte settles nothing, and a wrong one settles the record.
    if s.len() <= at {
        return false;
    }
    if s[at] != b'M' {
        return true;
    }
    let left = s.len() - at;
    if left < 2 {
        return false;
    }
    if s[at + 1] != b'P' {
        return true;
    }
    if left < 3 {
        return false;
    }
    let wide = byte(s, at + 2);
    if !side_good(wide) {
        return true;
    }
    if left < 4 {
        return false;
    }
    let high = byte(s, at + 3);
    if !side_good(high) {
        return true;
    }
    if 4 + wide * high <= left {
        return true;
    }
    !cells_good(s, at + 4, left - 4)
}

// Whether the bytes s settle the record at `at`, where a job is due and s has at least one byte of it.
fn job_settled(s: &[u8], at: usize) -> bool
    requires { at < length s.now }
    ensures { (k : ℕ) → Decides result (JobSettled s.now at k) }
{
    // Kept: no plainer, since the answers alternate, as in `map_settled`.
    if s[at] != b'J' {
        return true;
    }
    let left = s.len() - at;
    if left < 2 {
        return false;
    }
    if s[at + 1] != b'B' {
        return true;
    }
    7 <= left
}

impl Cursor {
    // The cursor at the start of a stream.
    pub fn new() -> Self
        ensures { result ≡ start_cursor }
    {
        Cursor { at: 0, due: 0 }
    }

    // The record at the cursor, with the cursor past it; none at the end of the input; or a bad record.
    #[tactic(auto, unfolding(crate::specs::Format::record_at))]
    pub fn step(self, s: &[u8]) -> Result<Option<(Record, Cursor)>, BadRecord>
        ensures { result ≡ record_at s.now self }
    {
        let Cursor { at, due } = self;
        if due == 0 {
            return Ok(Some(read_map(s, at)?));
        }
        if s.len() <= at {
            return Ok(None);
        }
        if 1000 < due {
            return Err(BadRecord { at });
        }
        Ok(Some(read_job(s, at, due)?))
    }

    // Whether the bytes s settle the record at the cursor: a step finds the same whatever follows them.
    pub fn is_settled(self, s: &[u8]) -> bool
        ensures { Decides result (Settled s.now self) }
    {
        let Cursor { at, due } = self;
        if due == 0 {
            return map_settled(s, at);
        }
        at < s.len() && (1000 < due || job_settled(s, at))
    }
}
