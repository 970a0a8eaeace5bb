// Walks, costs, counts and the central route, over any table of moves: definitions in specs/, laws in proofs/. The code
// is one constant, the cost that crates above write where no walk joins two vertices, a function whose contract says
// that it is `unreachable`, and a sheet that a caller hands in.
//
// The terms of docs/RULES.md, sections 4 and 5, and what they are called here:
//
//     a walk, an open walk     a list that `walks g k u t` lists; as a relation, `Walk g k u t l` (proofs/Listing)
//     the cheapest cost        `distance g u t`; d(v) is `distance g a v`, e(v) is `distance g v b`
//     M                        `unreachable`
//     on the way               `on_way g a b v`; by costs that are handed in, `on_shortest`
//     f(v), b(v)               `count_from g a b v`, `count_to g a b v`: on the way `path_count g a v`, `path_count g v b`
//     the traversal count      `traversals g a b v`
//     the total                `path_count g a b`; that it is at most 2^64 - 1 is `fits g a b`
//     a walk joins A to B      `joined g a b`
//     the central route        `central_route g a b`
//     the next vertex          `next_number g a b v` (rule 5.3)
//     the sheet                `Sheet`; of a sheet as the code has it, `sheet_in`
//     the true route sheet     `route_sheet g a b`, where `TrueRoute g a b s` says that s is it and that the job has one
//     the true no_route sheet  `no_route_sheet g a`, and `TrueNoRoute g a b s`
//
// To believe: specs/ but for specs/Local and specs/Onward. The laws to start from: proofs/Faithful (costs and counts
// are those of walks), proofs/Reverse (walks turned round), proofs/Route (the central route is a cheapest walk),
// proofs/NextNumbers (the central route is the walk through the next vertices), proofs/Sheets (which sheets are true),
// proofs/SheetTest (the tests of specs/Local are exact).
#![tactic(auto)]

ghost use Rattle.std.specs.Prelude.{◌≡◌};
ghost use Rattle.paths.specs.Distance.{unreachable};

mod sheet; // sheet.rt: a sheet that is handed in

pub use sheet::Sheet;

// The cost where no walk joins two vertices: M of rule 4.2.
pub const UNREACHABLE: u32 = 4294967295;

// The constant is `unreachable`. Nothing calls this function: it is here for its contract.
pub fn unreachable_cost() -> u32
    ensures { result ≡ unreachable }
{
    UNREACHABLE
}
