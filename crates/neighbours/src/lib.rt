// Loops over the moves of one vertex: whether its costs are right, the sum of its neighbours' counts, and the next
// vertex of the central route; and a loop over the vertices of a row.
//
// The moves are read in one form: the directions of the neighbourhood, with their costs in the table; for each
// direction, by how much it changes a vertex number (`offsets::shifts_of`); and a mask of the vertex's moves, the open
// ones or those that leave it. The shifts are lent, since an array passed by value would be copied at each vertex.
// Kept: no plainer, since the clauses by `Readable` need the mask and the vertex besides: directions and shifts apart.
#![tactic(auto)]

ghost use Rattle.std.specs.Prelude.{◌≡◌, ◌&&◌, true, false, ◌<◌, ◌≤◌, ◌^◌, length};
ghost use Rattle.std.proofs.Math.Option.{some};
ghost use Rattle.moves.specs.Moves.{dir_count, dir_at, move_at};
ghost use Rattle.moves.specs.Table.{lawful_dirs};
ghost use Rattle.offsets.specs.Offsets.{Movable, shifted_by, end_of};
ghost use Rattle.paths.specs.Route.{on_shortest};
ghost use Rattle.paths.specs.Local.{entry, inflow};
ghost use Rattle.neighbours.specs.Reading.{read_step, mask_graph, Readable, sum_of};
ghost use Rattle.neighbours.specs.Least.{end_at, least_by, least_two, right_by, right_least};
ghost use Rattle.neighbours.specs.Least.{ClassLent, ClassesLent};
ghost use Rattle.neighbours.specs.Rows.{RowCalls, RowTold};
ghost use Rattle.neighbours.specs.Choice.{Choosing, Counted, OnwardBy, OffWay, follows_by, traversal_of, next_of};

use floor::Vertex;
use moves::Directions;
use offsets::Class;

// A cost above every other: what a class of no move gives.
const NOWHERE: u64 = 4294967296;

// The cost of vertex v, in 64 bits.
fn cost_at(d: &[u32], v: usize) -> u64
    requires { v < length d.now }
    ensures { (result ≡ entry d.now v) × (result < 4294967296) }
{
    u64::from(d[v])
}

// The far end of move m of the directions from v.
fn far_end(dirs: Directions, shifts: &[usize], mask: u32, v: usize, m: usize) -> Option<Vertex>
    requires { (lawful_dirs dirs ≡ true) × (m < dirs.count) × (length shifts.now ≡ dir_count)
        × Movable mask v (dir_at dirs m) (shifted_by shifts.now (dir_at dirs m)) }
    ensures { result ≡ end_of (read_step dirs shifts.now mask v m) }
{
    let k = moves::dir_at(dirs, m);
    offsets::open_end(mask, Vertex(v), k, shifts[k])
}

// The cost of move m of the directions, in 64 bits.
fn move_cost(dirs: Directions, m: usize) -> u64
    requires { (lawful_dirs dirs ≡ true) × (m < dirs.count) }
    ensures { (result ≡ (move_at dirs m).cost) × (result < 4294967296) }
{
    u64::from(moves::cost_at(dirs, m))
}

// The far end of direction k from v, by the mask of v's open moves and the shifts; v itself where that move is shut. So
// a loop over the directions of a class does not branch.
pub fn end_or_self(mask: u32, v: Vertex, k: usize, shifts: &[usize]) -> Vertex
    requires { (k < length shifts.now) × Movable mask v.0 k (shifted_by shifts.now k) }
    ensures { result.0 ≡ end_at shifts.now mask v.0 k }
{
    let Some(end) = offsets::open_end(mask, v, k, shifts[k]) else {
        return v;
    };
    end
}

// The least cost that an open move of a class gives v: that of its far end and its own. The far end of a shut move is v
// itself, which gives more than d(v) and does not change the answer of `right_by`.
#[tactic(auto, unfolding(crate::specs::Least::least_by, crate::specs::Least::least_of))]
fn least_by(shifts: &[usize], class: Class, mask: u32, d: &[u32], v: usize) -> u64
    requires { ClassLent (length d.now) shifts.now mask v class }
    ensures { result ≡ least_by shifts.now mask (entry d.now) v class }
{
    if class.cost == 0 {
        return NOWHERE;
    }
    let mut least = NOWHERE;
    for j in 0..4 {
        let w = end_or_self(mask, Vertex(v), offsets::class_dir(class, j), shifts);
        least = least.min(cost_at(d, w.0));
    }
    least + u64::from(class.cost)
}

// Whether the cost of v from a is right, where `least` is the least that a move gives it: it is that least, or lower at
// the source and where v is unreached.
#[tactic(auto, unfolding(crate::specs::Least::right_by))]
fn right_by(least: u64, a: usize, d: &[u32], v: usize) -> bool
    requires { v < length d.now }
    ensures { result ≡ right_by least a (entry d.now) v }
{
    let here = cost_at(d, v);
    here == least || here < least && (d[v] == paths::UNREACHABLE || v == a)
}

// The least cost that an open move of either class gives v. It is inlined in any case: called for each vertex, it makes
// the test of given costs take 1.3 of the instructions.
#[inline(always)]
fn least_two(shifts: &[usize], one: Class, other: Class, mask: u32, d: &[u32], v: usize) -> u64
    requires { ClassLent (length d.now) shifts.now mask v one
        × ClassLent (length d.now) shifts.now mask v other }
    ensures { result ≡ least_two shifts.now mask (entry d.now) v one other }
{
    let x = least_by(shifts, one, mask, d, v);
    let y = least_by(shifts, other, mask, d, v);
    x.min(y)
}

// Whether the cost d(v) from a is right, as far as v and its neighbours can tell. The last two classes are read only
// where the third has moves. With the classes written out, as in `costs_right`, this function would be too long for the
// compiler to inline it in the loops of its two callers.
#[inline(always)]
pub fn cost_right(
    shifts: &[usize],
    classes: [Class; offsets::CLASSES],
    mask: u32,
    a: usize,
    d: &[u32],
    v: usize,
) -> bool
    requires { ClassesLent (length d.now) shifts.now classes mask v }
    ensures { result ≡ right_least shifts.now classes mask a (entry d.now) v }
{
    let mut least = least_two(shifts, classes[0], classes[1], mask, d, v);
    if classes[2].cost != 0 {
        least = least.min(least_two(shifts, classes[2], classes[3], mask, d, v));
    }
    right_by(least, a, d, v)
}

// Whether both costs of v are right, d(v) from a and e(v) from b, as far as v and its neighbours can tell. The least
// costs are taken class by class, so that the far ends of a class are worked out once for both. The compiler inlines
// this function in its one caller.
pub fn costs_right(
    shifts: &[usize],
    classes: [Class; offsets::CLASSES],
    mask: u32,
    a: usize,
    b: usize,
    d: &[u32],
    e: &[u32],
    v: usize,
) -> bool
    requires { ClassesLent (length d.now) shifts.now classes mask v × (length e.now ≡ length d.now) }
    ensures { result ≡ (right_least shifts.now classes mask a (entry d.now) v
        && right_least shifts.now classes mask b (entry e.now) v) }
{
    let d_first = least_by(shifts, classes[0], mask, d, v);
    let e_first = least_by(shifts, classes[0], mask, e, v);
    let d_second = least_by(shifts, classes[1], mask, d, v);
    let e_second = least_by(shifts, classes[1], mask, e, v);
    let mut d_least = d_first.min(d_second);
    let mut e_least = e_first.min(e_second);
    if classes[2].cost != 0 {
        let d_third = least_by(shifts, classes[2], mask, d, v);
        let e_third = least_by(shifts, classes[2], mask, e, v);
        let d_fourth = least_by(shifts, classes[3], mask, d, v);
        let e_fourth = least_by(shifts, classes[3], mask, e, v);
        d_least = d_least.min(d_third.min(d_fourth));
        e_least = e_least.min(e_third.min(e_fourth));
    }
    right_by(d_least, a, d, v) && right_by(e_least, b, e, v)
}

// The sum of the counts f of the neighbours of v from which a move leads to v at just the cost d(v), where it fits 64
// bits.
pub fn inflow_at(
    dirs: Directions,
    shifts: &[usize],
    mask: u32,
    d: &[u32],
    f: &[u64],
    v: usize,
) -> Option<u64>
    requires { Readable (length d.now) dirs shifts.now mask v × (length f.now ≡ length d.now) }
    ensures { result ≡ sum_of (inflow (mask_graph (length d.now) dirs shifts.now mask)
        (entry d.now) (entry f.now) v) }
{
    let here = cost_at(d, v);
    let mut s: u64 = 0;
    for m in 0..dirs.count {
        let Some(w) = far_end(dirs, shifts, mask, v, m) else {
            continue;
        };
        if cost_at(d, w.0) + move_cost(dirs, m) == here {
            s = s.checked_add(f[w.0])?;
        }
    }
    Some(s)
}

// Whether v is on the way to the goal, by the costs d from the start and e to the goal.
pub fn on_way(d: &[u32], e: &[u32], goal: usize, v: usize) -> bool
    requires { (goal < length d.now) × (v < length d.now) × (v < length e.now) }
    ensures { result ≡ on_shortest (entry d.now) (entry e.now) goal v }
{
    d[goal] != paths::UNREACHABLE && cost_at(d, v) + cost_at(e, v) == cost_at(d, goal)
}

// False only where none of the vertices from `first` to before `past` is on the way to the goal. All of them are tested:
// without a branch on each the compiler runs several at a time.
pub fn any_on_way(d: &[u32], e: &[u32], goal: usize, first: usize, past: usize) -> bool
    requires { (goal < length d.now) × (past ≤ length d.now) × (length e.now ≡ length d.now) }
    ensures { result ≡ false → OffWay d.now e.now goal first past }
{
    let whole = cost_at(d, goal);
    let mut any = false;
    // Kept: no plainer, since `cost_at` reads two slices at v.
    for v in first..past {
        any |= cost_at(d, v) + cost_at(e, v) == whole;
    }
    any
}

// Whether the route may go from v to w by a move that costs c: w is on the way, and costs c more than v.
#[tactic(auto, unfolding(crate::specs::Choice::follows_by))]
fn follows(d: &[u32], e: &[u32], goal: usize, v: usize, w: usize, c: u64) -> bool
    requires { (goal < length d.now) × (v < length d.now) × (w < length d.now)
        × (length e.now ≡ length d.now) × (c < 4294967296) }
    ensures { result ≡ follows_by
        (on_shortest (entry d.now) (entry e.now) goal) (entry d.now) v w c }
{
    cost_at(d, w) == cost_at(d, v) + c && on_way(d, e, goal, w)
}

// The traversal count of v.
fn traversal_at(f: &[u64], b: &[u64], v: usize) -> u64
    requires { (v < length f.now) × (v < length b.now) × (traversal_of f.now b.now v < 2 ^ 64) }
    ensures { result ≡ traversal_of f.now b.now v }
{
    f[v] * b[v]
}

// Where the central route goes from v, by the costs d and e and the counts f and b: to the candidate with the highest
// traversal count, the first among equals. By `OnwardBy` some candidate has a positive count.
pub fn next_at(
    dirs: Directions,
    shifts: &[usize],
    mask: u32,
    d: &[u32],
    e: &[u32],
    f: &[u64],
    b: &[u64],
    goal: usize,
    v: usize,
) -> Vertex
    requires { Choosing dirs shifts.now mask d.now e.now goal v × Counted (length d.now) f.now b.now
        × OnwardBy dirs shifts.now mask d.now e.now f.now b.now goal v }
    ensures { next_of dirs shifts.now mask
        d.now e.now f.now b.now goal v ≡ some result.0 }
{
    let mut best = Vertex(v);
    let mut high: u64 = 0;
    for m in 0..dirs.count {
        let Some(w) = far_end(dirs, shifts, mask, v, m) else {
            continue;
        };
        if !follows(d, e, goal, v, w.0, move_cost(dirs, m)) {
            continue;
        }
        let x = traversal_at(f, b, w.0);
        if x <= high {
            continue;
        }
        best = w;
        high = x;
    }
    best
}

// Whether each vertex of row y, on a floor of width w, passes a test of its number and of its mask. The loop goes on
// after a vertex that fails: an early exit makes every iteration slower.
pub fn row_passes<F: Fn(usize, u32) -> bool>(
    w: usize,
    y: usize,
    masks: [u32; 128],
    passes: F,
) -> bool
    requires sides { (w ≤ 127) × (y ≤ 127) }
    requires calls { RowCalls w y masks (F.pre passes) }
    ensures { RowTold w y masks (F.post passes) result }
{
    let first = y * (w + 1);
    let mut right = true;
    for x in 0..w + 1 {
        right &= passes(first + x, masks[x]);
    }
    right
}
