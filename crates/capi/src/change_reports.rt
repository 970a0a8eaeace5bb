// What changed between two floors: the first is the one before the change, the second, whose names end in 2, the one
// after it.
ghost use Rattle.changes.specs.Changes.{given_floor_of, report_slices_of};
ghost use Rattle.capi.specs.Changes.{CellsTo, CostsTo};

// The first report's answer with how many cells closed and how many opened, both 0 at a refusal.
#[repr(C)]
#[derive(Clone, Copy)]
pub struct ChangesResult {
    pub closed: usize,
    pub opened: usize,
    pub answer: u8,
}

// The first report: which cells differ.
pub fn lurfanzi_changes(
    width: u32,
    height: u32,
    map: &[u8],
    width2: u32,
    height2: u32,
    map2: &[u8],
    cells: &mut [u16],
) -> ChangesResult
    ensures { CellsTo (given_floor_of width height map.now)
        (given_floor_of width2 height2 map2.now)
        cells.old result cells.new }
{
    let r = changes::cell_changes(
        width as usize,
        height as usize,
        map,
        width2 as usize,
        height2 as usize,
        map2,
        cells,
    );
    ChangesResult {
        closed: r.map_or(0, |t| t.closed),
        opened: r.map_or(0, |t| t.opened),
        answer: floor::answer_number(r),
    }
}

// The second report: how the costs from a start changed.
pub fn lurfanzi_cost_changes(
    width: u32,
    height: u32,
    map: &[u8],
    width2: u32,
    height2: u32,
    map2: &[u8],
    neighbourhood: u32,
    a: u32,
    costs: &mut [u32],
    costs2: &mut [u32],
    changes: &mut [u8],
    work: &mut [u32],
) -> u8
    ensures { CostsTo (given_floor_of width height map.now)
        (given_floor_of width2 height2 map2.now)
        neighbourhood a
        (report_slices_of costs.old costs2.old changes.old work.old) result
        (report_slices_of costs.new costs2.new changes.new work.new) }
{
    let r = changes::cost_changes(
        width as usize,
        height as usize,
        map,
        width2 as usize,
        height2 as usize,
        map2,
        neighbourhood as usize,
        a as usize,
        costs,
        costs2,
        changes,
        work,
    );
    floor::answer_number(r)
}
