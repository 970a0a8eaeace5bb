// Thinning: the positions of a list of vertices that a cart needs.
#![tactic(auto)]

ghost use Rattle.std.specs.Prelude.{◌≡◌, suc, pred, ◌<◌, ◌≤◌, length, get_or};
ghost use Rattle.basics.specs.Bounded.{every};
ghost use Rattle.floor.specs.Floor.{vertices};
ghost use Rattle.floor.specs.Plan.{floor_on};
ghost use Rattle.thinning.specs.Thinning.{next_kept, is_vertex, sees_next, joined_list};
ghost use Rattle.thinning.specs.Answer.{list_shape, Thins};
ghost use Rattle.thinning.specs.Known.{Leg, Steps, Chained, Recordable, Recorded};
ghost use Rattle.thinning.specs.Points.{seen_in};

use floor::{FloorPlan, Refusal, Vertex};

mod points; // points.rt: a list of vertices on a floor

pub use points::PointList;

impl PointList<'_> {
    // The vertex at position k.
    fn vertex(self, k: usize) -> Vertex
        requires { k < self.n }
        ensures { (result.0 ≡ get_or self.entry.list.now k 0)
            × (result.0 < vertices self.entry.floor.w self.entry.floor.h) }
    {
        Vertex(usize::from(self.list[k]))
    }

    // Whether the vertices at positions i and k see each other. It is inlined in any case: called, it would be handed the
    // list in memory for each position.
    #[inline(always)]
    pub fn sees(self, i: usize, k: usize) -> bool
        requires { (i < self.n) × (k < self.n) }
        ensures { result ≡ seen_in self.entry i k }
    {
        sight::in_sight(self.floor, self.vertex(i), self.vertex(k))
    }

    // Whether each vertex, but the last, sees the next.
    fn each_sees_next(self) -> bool
        requires { 1 ≤ self.n }
        ensures { result ≡ every (pred self.entry.n) (sees_next (floor_on self.entry.floor) self.entry.list.now) }
    {
        (0..self.n - 1).all(|k| self.sees(k, k + 1))
    }

    // The position kept after position i, which sees position i + 1: one less than the first position past i that i
    // does not see, or n - 1.
    fn next_kept(self, i: usize) -> usize
        requires { Leg (floor_on self.floor) self.list.now self.n i }
        ensures { result ≡ next_kept (seen_in self.entry) self.entry.n i }
    {
        let mut last = i + 1;
        for k in i + 2..self.n {
            if !self.sees(i, k) {
                break;
            }
            last = k;
        }
        last
    }

    // Writes the kept positions of a joined list into the output slice, then 0, and answers their number.
    fn record_kept(self, out: &mut [u16]) -> usize
        requires { Recordable (floor_on self.floor) self.list.now out.old self.n }
        ensures { Recorded (floor_on self.entry.floor) self.entry.list.now out.old self.entry.n result
            out.new }
    {
        record(self.n, out, |i| self.next_kept(i))
    }
}

// Writes positions below n into the output slice, then 0, and answers their number: position 0, and after each that is
// not n - 1 the one that `next` answers. Position 0 is written when the slice is cleared.
pub fn record<F: Fn(usize) -> usize>(n: usize, out: &mut [u16], next: F) -> usize
    requires room { (1 ≤ n) × (n ≤ 16384) × (n ≤ length out.old) }
    requires steps { Steps (F.pre next) (F.post next) n }
    ensures { Chained (F.post next) n out.old result out.new }
{
    out.fill(0);
    let mut i: usize = 0;
    let mut m: usize = 1;
    // Kept: no plainer, since each position is found from the one before.
    while i + 1 < n {
        i = next(i);
        out[m] = i as u16;
        m += 1;
    }
    m
}

// Whether the first n numbers of the list are vertices.
fn all_vertices(floor: FloorPlan<'_>, list: &[u16], n: usize) -> bool
    requires { n ≤ length list.now }
    ensures { result ≡ every n (is_vertex floor.entry.w floor.entry.h list.now) }
{
    let count = floor::vertex_count(floor.w, floor.h);
    list[..n].iter().all(|v| usize::from(*v) < count)
}

// Whether the first n places of the list are a joined list.
#[tactic(auto, unfolding(crate::specs::Thinning::joined_list))]
fn joined(floor: FloorPlan<'_>, list: &[u16], n: usize) -> bool
    ensures { result ≡ joined_list (floor_on floor.entry) list.now n }
{
    1 <= n
        && n <= list.len()
        && all_vertices(floor, list, n)
        && PointList { floor, list, n }.each_sees_next()
}

// The first refusal of 1, 2, 3, 6 and 10 that applies, for an output slice of `places` places.
// Kept: what may not change: the parameters of `list_shape`.
#[tactic(auto, unfolding(crate::specs::Answer::list_shape))]
pub fn list_shape(
    w: usize,
    h: usize,
    map: &[u8],
    list: &[u16],
    places: usize,
    n: usize,
) -> Result<(), Refusal>
    ensures { result ≡ list_shape w h map.now list.now places n }
{
    floor::floor_shape(w, h, map)?;
    if 16384 < list.len() || places != list.len() {
        return Err(Refusal::SliceLength);
    }
    if !joined(FloorPlan { w, h, map }, list, n) {
        return Err(Refusal::NotJoined);
    }
    Ok(())
}

// Thins the first n places of the list: the output slice gets the kept positions of the list, then 0, and the answer is
// their number. A refusal writes nothing; the list is only read.
// Kept: what may not change: the parameters of `thin`.
pub fn thin<'a>(
    w: usize,
    h: usize,
    map: &'a [u8],
    list: &'a [u16],
    out: &mut [u16],
    n: usize,
) -> Result<usize, Refusal>
    ensures { Thins w h map.now list.now out.old n result out.new }
{
    list_shape(w, h, map, list, out.len(), n)?;
    let points = PointList {
        floor: FloorPlan { w, h, map },
        list,
        n,
    };
    Ok(points.record_kept(out))
}
