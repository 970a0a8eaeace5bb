// Dijkstra's algorithm with one queue for each edge cost. `work` begins with the settled vertices in the order in which
// they were settled, by rising cost. The queue of an edge cost is that order from a position of its own on, so that no
// other memory holds a queue. The least key, which is the cost of a queue's first vertex and that edge cost, is given
// to the far ends of its edges that have no cost yet. The contracts are over any graph whose steps the masks and the
// offsets of the directions give.
ghost use Rattle.std.specs.Prelude.{◌≡◌, ℕ, ◌<◌, ◌≤◌, false, length};
ghost use Rattle.moves.specs.declared.Directions.{Directions};
ghost use Rattle.paths.specs.Graph.{Graph};
ghost use Rattle.paths.specs.Local.{entry};
ghost use Rattle.distances.specs.Costs.{SettledCosts};
ghost use Rattle.distances.specs.Dijkstra.{cost_given, count_given, Given, key_of, Keyed};
ghost use Rattle.distances.specs.Dijkstra.{Relaxing, Relaxed, Runnable, OnlySource, Begun};
ghost use Rattle.offsets.specs.Classes.{class_at};

use floor::Vertex;
use offsets::Class;

// The cost c after key was offered: the key where there was none.
fn cost_given(c: u32, key: u32) -> u32
    ensures { result ≡ cost_given c key }
{
    if c == paths::UNREACHABLE { key } else { c }
}

// How many vertices that adds to the settled.
fn count_given(c: u32) -> usize
    ensures { (result ≡ count_given c) × (result ≤ 1) }
{
    usize::from(c == paths::UNREACHABLE)
}

// Gives the key to vertex x where it has no cost yet, as the vertex settled after n others. Without BRANCH the stores are
// made in any case, so that nothing has to branch, and change nothing that counts where x has a cost.
fn offer<const BRANCH: bool>(x: usize, key: u32, n: usize, d: &mut [u32], work: &mut [u32]) -> usize
    requires { (x < length d.old) × (x < 16384) × (n < length work.old) }
    ensures { Given x key n result d.old d.new work.old work.new }
{
    let c = d[x];
    work[n] = x as u32;
    if BRANCH && c != paths::UNREACHABLE {
        return n;
    }
    d[x] = cost_given(c, key);
    n + count_given(c)
}

// Gives the key to the far ends of the open moves of a class from the vertex at place p of the order. A shut move offers it
// to that vertex itself, which has a cost. `shifts` has by how much the move of each direction changes a vertex number;
// it is lent, since a table passed by value would be copied at each turn.
//
// With BRANCH each offer has a branch on whether there is a cost. Of sixteen offers one finds none: what the branch
// spares on open floors and in halls is more than what it loses on broken floors, where it is not foreseen.
//
// Each of the two tables has half of the directions, and a class every fourth of these. Their number is read here, so
// that the loop is put whole into the one that calls it, and written out there: written out here, it is too long for
// that.
fn relax<const BRANCH: bool>(
    shifts: &[usize],
    class: Class,
    p: usize,
    key: u32,
    n: usize,
    d: &mut [u32],
    work: &mut [u32],
) -> usize
    requires { (g : Graph) × (r : Directions) × (a : ℕ)
        × Relaxing g r shifts.now class a p key n d.old work.old }
    ensures { (g : Graph) → (r : Directions) → (a : ℕ)
        → Relaxing g r shifts.now class a p key n d.old work.old
        → Relaxed g r a (entry work.old p) class key n result d.old d.new
        work.old work.new }
{
    let u = Vertex(workspace::settled_at(work, p));
    let mask = workspace::mask_at(work, d.len(), u.0);
    let mut k = n;
    for j in 0..shifts.len() / 8 {
        let x = neighbours::end_or_self(mask, u, offsets::class_dir(class, j), shifts);
        k = offer::<BRANCH>(x.0, key, k, d, work);
    }
    k
}

// The key of place p of the order for moves that cost c.
fn key_at(n: usize, p: usize, c: u32, d: &[u32], work: &[u32]) -> u32
    requires { Keyed n d.now work.now × (c ≤ 4095) }
    ensures { result ≡ key_of n p c d.now work.now }
{
    if n <= p {
        return paths::UNREACHABLE;
    }
    let u = workspace::settled_at(work, p);
    d[u] + c
}

// Where the position of a class starts: past all v vertices for a class of no move.
fn first_place(class: Class, v: usize) -> usize
    ensures { (0 < class.cost → result ≡ 0) × (class.cost ≡ 0 → result ≡ v) }
{
    if 0 < class.cost { 0 } else { v }
}

// Nothing is settled but a, at cost 0.
fn begin(a: usize, d: &mut [u32], work: &mut [u32])
    requires { (a < length d.old) × (a < 16384) × (0 < length work.old) }
    ensures { OnlySource a d.old d.new work.old work.new }
{
    d.fill(paths::UNREACHABLE);
    d[a] = 0;
    work[0] = a as u32;
}

// The algorithm from the source on; answers how many vertices have a cost. Each turn moves one position on by one place,
// so a vertex has at most one turn for each. The last two classes, of one cost, have one position, and a turn of it gives
// the key to the far ends of both. Where THIRD does not hold these have no move, and nothing looks at them.
fn settle_begun<const THIRD: bool>(
    shifts: &[usize],
    classes: [Class; offsets::CLASSES],
    d: &mut [u32],
    work: &mut [u32],
) -> usize
    requires begun { (g : Graph) × (r : Directions) × (a : ℕ)
        × Begun g r shifts.now classes a d.old work.old }
    requires unused { THIRD ≡ false → (class_at classes 2).cost ≡ 0 }
    ensures { (g : Graph) → (r : Directions) → (a : ℕ)
        → Begun g r shifts.now classes a d.old work.old
        → SettledCosts g a result d.new work.old work.new }
{
    let mut n: usize = 1;
    let mut p0 = first_place(classes[0], d.len());
    let mut p1 = first_place(classes[1], d.len());
    let mut p2 = first_place(classes[2], d.len());
    loop {
        let k0 = key_at(n, p0, classes[0].cost, d, work);
        let k1 = key_at(n, p1, classes[1].cost, d, work);
        let k2 = if THIRD {
            key_at(n, p2, classes[2].cost, d, work)
        } else {
            paths::UNREACHABLE
        };
        if k0 <= k1.min(k2) {
            if k0 == paths::UNREACHABLE {
                return n;
            }
            n = relax::<THIRD>(shifts, classes[0], p0, k0, n, d, work);
            p0 += 1;
        } else if k1 <= k2 {
            n = relax::<THIRD>(shifts, classes[1], p1, k1, n, d, work);
            p1 += 1;
        } else {
            n = relax::<THIRD>(shifts, classes[2], p2, k2, n, d, work);
            n = relax::<THIRD>(shifts, classes[3], p2, k2, n, d, work);
            p2 += 1;
        }
    }
}

// Fills d with the costs from a, and the beginning of `work` with the vertices that have one, by rising cost; answers
// how many those are. Where the third class has no move, and so neither has the fourth, it goes by two positions: with a
// third to look at, every turn takes longer.
pub fn settle(
    shifts: &[usize],
    classes: [Class; offsets::CLASSES],
    a: usize,
    d: &mut [u32],
    work: &mut [u32],
) -> usize
    requires { (g : Graph) × (r : Directions) × Runnable g r shifts.now classes a d.old work.old }
    ensures { (g : Graph) → (r : Directions)
        → Runnable g r shifts.now classes a d.old work.old
        → SettledCosts g a result d.new work.old work.new }
{
    begin(a, d, work);
    if classes[2].cost == 0 {
        settle_begun::<false>(shifts, classes, d, work)
    } else {
        settle_begun::<true>(shifts, classes, d, work)
    }
}
