// What changed between two floors.
ghost use Rattle.changes.specs.Changes.{given_floor_of, report_slices_of};
ghost use Rattle.capi.specs.Changes.{CellsTo, CostsTo};

use capi::change_reports::ChangesResult;

// The first report: which cells differ.
#[unsafe(no_mangle)]
pub extern "C" fn lurfanzi_changes(
    width: u32,
    height: u32,
    map: &[u8],
    width2: u32,
    height2: u32,
    map2: &[u8],
    cells: &mut [u16],
) -> ChangesResult
    ensures { CellsTo (given_floor_of width height map.now)
        (given_floor_of width2 height2 map2.now)
        cells.old result cells.new }
{
    capi::change_reports::lurfanzi_changes(width, height, map, width2, height2, map2, cells)
}

// The second report: how the costs from a start changed.
#[unsafe(no_mangle)]
pub extern "C" fn lurfanzi_cost_changes(
    width: u32,
    height: u32,
    map: &[u8],
    width2: u32,
    height2: u32,
    map2: &[u8],
    neighbourhood: u32,
    a: u32,
    costs: &mut [u32],
    costs2: &mut [u32],
    changes: &mut [u8],
    work: &mut [u32],
) -> u8
    ensures { CostsTo (given_floor_of width height map.now)
        (given_floor_of width2 height2 map2.now)
        neighbourhood a
        (report_slices_of costs.old costs2.old changes.old work.old) result
        (report_slices_of costs.new costs2.new changes.new work.new) }
{
    capi::change_reports::lurfanzi_cost_changes(
        width,
        height,
        map,
        width2,
        height2,
        map2,
        neighbourhood,
        a,
        costs,
        costs2,
        changes,
        work,
    )
}
