// A floor plan. It stands in a file of its own, since the clauses of its methods speak of it.
ghost use Rattle.floor.specs.Known.{Sized};

// The sides of a floor in cells, at most 127 each, and its map, which is as long as that of so many cells.
#[derive(Clone, Copy)]
pub struct FloorPlan<'a> {
    pub w: usize,
    pub h: usize,
    pub map: &'a [u8],
    ghost sized: { Sized w h map.now },
}
