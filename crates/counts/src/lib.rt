// The counts of cheapest walks on the way from a to b, for every vertex: f and b of rule 4.6.
//
// The working slice has the vertices that reach b, in order of rising cost to b. Those on the way are kept, at its
// beginning, and both counts are filled along them: the counts to b from the front, the counts from a from the back,
// since on the way the cost from a rises as the cost to b falls. A vertex gets its count once every vertex whose count
// is added to it has its own. A sum on the way never passes the total, so a sum that does not fit says that the total
// does not.
#![tactic(auto)]

ghost use Rattle.std.specs.Prelude.{◌≡◌, ℕ, ◌<◌, ◌≤◌, length};
ghost use Rattle.basics.specs.Lists.{zeros};
ghost use Rattle.paths.specs.Graph.{Graph};
ghost use Rattle.paths.specs.Local.{entry};
ghost use Rattle.neighbours.specs.Reading.{Readable, sum_of};
ghost use Rattle.counts.specs.Passes.{
  turn_of,
  count_of,
  sums_to,
  Filtered,
  PassInput,
  Passable,
  Known,
  Summed,
  Filled,
};

use moves::Directions;

// Whether d[u] + e[u] is `whole`. Where that is the cost of the way, u is then on it.
fn sums_to(d: &[u32], e: &[u32], whole: u32, u: usize) -> bool
    requires { (u < length d.now) × (u < length e.now) }
    ensures { result ≡ sums_to d.now e.now whole u }
{
    u64::from(d[u]) + u64::from(e[u]) == u64::from(whole)
}

// Of the vertices at the first n places keeps those on a way of cost `whole`, in their order, at the beginning, and
// answers how many. Every vertex is stored after those kept, and stays there only where the test adds 1 to their
// number: so nothing branches on the test.
fn keep_on_way(whole: u32, n: usize, d: &[u32], e: &[u32], work: &mut [u32]) -> usize
    requires { (n ≤ length work.old) × (length e.now ≡ length d.now)
        × ((i : ℕ) → i < n → entry work.old i < length d.now) }
    ensures { Filtered (sums_to d.now e.now whole) n result
        work.old work.new }
{
    let mut kept: usize = 0;
    for i in 0..n {
        let u = workspace::copy_settled(work, i, kept);
        kept += usize::from(sums_to(d, e, whole, u));
    }
    kept
}

// The vertex that a pass over the n places of the order comes to at turn i: from the front, or, where `rev` holds, from
// the back.
// Kept: no plainer, since the contracts of a pass speak of the place of turn i by the flag (`turn_place`).
fn vertex_of_turn(work: &[u32], n: usize, rev: bool, i: usize) -> usize
    requires { (n ≤ length work.now) × (i < n) }
    ensures { result ≡ turn_of work.now n rev i }
{
    workspace::settled_at(work, if rev { n - 1 - i } else { i })
}

// The count from the start of vertex u, which is on the way: 1 at the start, elsewhere the sum of the counts f over the
// moves by which a cheapest walk comes to u.
fn count_of(
    dirs: Directions,
    shifts: &[usize],
    mask: u32,
    start: usize,
    d: &[u32],
    f: &[u64],
    u: usize,
) -> Option<u64>
    requires { Readable (length d.now) dirs shifts.now mask u × (length f.now ≡ length d.now) }
    ensures { result ≡ sum_of (count_of dirs shifts.now mask start d.now f.now u) }
{
    if u == start {
        return Some(1);
    }
    neighbours::inflow_at(dirs, shifts, mask, d, f, u)
}

// Fills f with the counts from the start, at the vertices on the way, which stand at the first n places. Answers false
// where a count does not fit 64 bits.
fn count_along(
    dirs: Directions,
    shifts: &[usize],
    start: usize,
    d: &[u32],
    n: usize,
    rev: bool,
    work: &[u32],
    f: &mut [u64],
) -> bool
    requires { PassInput dirs shifts.now n d.now work.now
        × (f.old ≡ zeros (length d.now)) }
    ensures { (g : Graph) (goal : ℕ)
        → Passable g dirs shifts.now start goal n rev d.now work.now
        → Summed g start goal f.new result }
{
    for i in 0..n {
        let u = vertex_of_turn(work, n, rev, i);
        let mask = workspace::mask_at(work, d.len(), u);
        let Some(x) = count_of(dirs, shifts, mask, start, d, f, u) else {
            return false;
        };
        f[u] = x;
    }
    true
}

// Fills f with the counts from a and back with the counts to b. Where the total does not fit 64 bits, answers false and
// leaves both all 0. The pass that fills f cannot fail: its sums are at most the total, which by then stands in
// back[a]. In the working slice the vertices on the way take the place of the order, and the masks stay.
pub fn fill_counts(
    dirs: Directions,
    shifts: &[usize],
    a: usize,
    b: usize,
    n: usize,
    d: &[u32],
    e: &[u32],
    work: &mut [u32],
    f: &mut [u64],
    back: &mut [u64],
) -> bool
    requires { PassInput dirs shifts.now n d.now work.old
        × (length e.now ≡ length d.now) × (a < length d.now) × (b < length d.now)
        × (f.old ≡ zeros (length d.now)) × (back.old ≡ zeros (length d.now)) }
    ensures { (g : Graph)
        → Known g dirs shifts.now a b n d.now e.now work.old
        → Filled g dirs shifts.now a b result work.new f.new back.new }
{
    let kept = keep_on_way(d[b], n, d, e, work);
    if count_along(dirs, shifts, b, e, kept, false, work, back) {
        return count_along(dirs, shifts, a, d, kept, true, work, f);
    }
    back.fill(0);
    false
}
