// The test of the route: one pass over its points, each compared with the next vertex of the point before.
ghost use Rattle.std.specs.Prelude.{◌≡◌, ◌≤◌, ◌<◌, length};
ghost use Rattle.paths.specs.Sheet.{sheet_in};
ghost use Rattle.checker.specs.Tests.{point_test, points_test};

use floor::Vertex;
use paths::Sheet;

// Place i of the route is right: b is the last point, and each other is followed by its next vertex.
fn point_right(b: usize, sheet: Sheet<'_>, i: usize) -> bool
    requires { (length sheet.next.now ≡ length sheet.route.now) × (length sheet.route.now ≤ 16384)
        × (sheet.n ≤ length sheet.route.now) × (i < sheet.n) }
    ensures { result ≡ point_test (length sheet.entry.route.now) b (sheet_in sheet.entry) i }
{
    let at = usize::from(sheet.route[i]);
    if sheet.next.len() <= at {
        return false;
    }
    if at == b {
        return i + 1 == sheet.n;
    }
    i + 1 < sheet.n && sheet.next[at] == sheet.route[i + 1]
}

// The route and its point count n are right: n is 1 to V, the first point is a, each of the n points is right, and past
// them stands 0.
pub fn route_right(a: Vertex, b: Vertex, sheet: Sheet<'_>) -> bool
    requires { (length sheet.next.now ≡ length sheet.route.now) × (length sheet.route.now ≤ 16384) }
    ensures { result ≡ points_test (length sheet.entry.route.now) a.0 b.0 (sheet_in sheet.entry) }
{
    if sheet.n < 1 || sheet.route.len() < sheet.n || usize::from(sheet.route[0]) != a.0 {
        return false;
    }
    (0..sheet.n).all(|i| point_right(b.0, sheet, i))
        && crate::zeros::all_zero(sheet.route, sheet.n, sheet.route.len())
}
