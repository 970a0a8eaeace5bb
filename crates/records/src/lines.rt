// The lines of the output, written into a lent buffer. Each function writes from place `at` on and answers the place
// after what it wrote; the rest of the buffer stays as it was.
ghost use Rattle.std.specs.Prelude.{◌≡◌, ◌+◌, ◌*◌, ◌≤◌, ◌++◌, length};
ghost use Rattle.records.specs.Lines.{decimal, field, fields, refused_line, route_line, at_line, bad_line};
ghost use Rattle.records.specs.Lines.{kept_of};
ghost use Rattle.records.specs.Known.{Kept, Written};

// Writes `text`.
pub fn put_text(buf: &mut [u8], at: usize, text: &[u8]) -> usize
    requires { at + length text.now ≤ length buf.old }
    ensures { Written buf.old at text.now buf.new result }
{
    let next = at + text.len();
    buf[at..next].copy_from_slice(text);
    next
}

// Writes the digits of n: those of n / 10, then the last one.
fn put_digits(buf: &mut [u8], at: usize, n: u64) -> usize
    requires { at + length (decimal n) ≤ length buf.old }
    ensures { Written buf.old at (decimal n) buf.new result }
{
    // Kept: no plainer, since `u8::try_from` of a digit would answer a result that cannot fail.
    if n < 10 {
        buf[at] = b'0' + n as u8;
        return at + 1;
    }
    let last = put_digits(buf, at, n / 10);
    buf[last] = b'0' + (n % 10) as u8;
    last + 1
}

// Writes the digits of n: at most 20.
pub fn put_decimal(buf: &mut [u8], at: usize, n: u64) -> usize
    requires { at + 20 ≤ length buf.old }
    ensures { Written buf.old at (decimal n) buf.new result }
{
    put_digits(buf, at, n)
}

// Writes `text`, then the digits of n.
fn put_field(buf: &mut [u8], at: usize, text: &[u8], n: u64) -> usize
    requires { at + length (text.now ++ decimal n) ≤ length buf.old }
    ensures { Written buf.old at (text.now ++ decimal n) buf.new result }
{
    let next = put_text(buf, at, text);
    put_digits(buf, next, n)
}

// Writes "job N: refused R": at most 55 bytes.
pub fn put_refused(buf: &mut [u8], at: usize, n: usize, r: u8) -> usize
    requires { at + 64 ≤ length buf.old }
    ensures { Written buf.old at (refused_line n r) buf.new result }
{
    // Kept: no plainer, since no `From` takes a usize to a u64.
    let p1 = put_field(buf, at, b"job ", n as u64);
    let p2 = put_field(buf, p1, b": refused ", u64::from(r));
    put_text(buf, p2, b"\n")
}

// Writes "bad record at K": at most 35 bytes.
pub fn put_bad(buf: &mut [u8], at: usize, k: usize) -> usize
    requires { at + 64 ≤ length buf.old }
    ensures { Written buf.old at (bad_line k) buf.new result }
{
    // Kept: no plainer, since no `From` takes a usize to a u64.
    let p1 = put_field(buf, at, b"bad record at ", k as u64);
    put_text(buf, p1, b"\n")
}

// Writes "job N: cost C routes T points P kept K": at most 134 bytes.
pub fn put_route(
    buf: &mut [u8],
    at: usize,
    n: usize,
    cost: u32,
    routes: u64,
    points: usize,
    kept: usize,
) -> usize
    requires { at + 160 ≤ length buf.old }
    ensures written { Written buf.old at (route_line n cost routes points kept) buf.new result }
    ensures upper_bound { result ≤ at + 160 }
{
    // Kept: no plainer, since no `From` takes a usize to a u64.
    let p1 = put_field(buf, at, b"job ", n as u64);
    let p2 = put_field(buf, p1, b": cost ", u64::from(cost));
    let p3 = put_field(buf, p2, b" routes ", routes);
    let p4 = put_field(buf, p3, b" points ", points as u64);
    let p5 = put_field(buf, p4, b" kept ", kept as u64);
    put_text(buf, p5, b"\n")
}

// Writes a space, then the digits of the vertex v: at most 6 bytes.
fn put_vertex(buf: &mut [u8], at: usize, v: u16) -> usize
    requires { at + 6 ≤ length buf.old }
    ensures { Written buf.old at (field " " v) buf.new result }
{
    put_field(buf, at, b" ", u64::from(v))
}

// Writes the vertices of `route` at the first k positions of `kept`, each after a space.
fn put_vertices(buf: &mut [u8], at: usize, route: &[u16], kept: &[u16], k: usize) -> usize
    requires kept { Kept k kept.now route.now }
    requires k_in_bounds { at + 6 * k ≤ length buf.old }
    ensures written { Written buf.old at (fields (kept_of k kept.now route.now))
        buf.new result }
    ensures upper_bound { result ≤ at + 6 * k }
{
    let mut next = at;
    for p in &kept[..k] {
        next = put_vertex(buf, next, route[usize::from(*p)]);
    }
    next
}

// Writes "at V1 V2 ..": the vertices of `route` at the first k positions of `kept`, each in at most 6 bytes.
pub fn put_at(buf: &mut [u8], at: usize, route: &[u16], kept: &[u16], k: usize) -> usize
    requires kept { Kept k kept.now route.now }
    requires k_in_bounds { at + (3 + 6 * k) ≤ length buf.old }
    ensures { Written buf.old at (at_line (kept_of k kept.now route.now))
        buf.new result }
{
    let first = put_text(buf, at, b"at");
    let last = put_vertices(buf, first, route, kept, k);
    put_text(buf, last, b"\n")
}
