// A sheet that a caller hands in, to be read.

// The slices d, e, f, b and route of rule 5.1, the slice next, and the point count n. `back` is the slice b.
#[derive(Clone, Copy)]
pub struct Sheet<'a> {
    pub d: &'a [u32],
    pub e: &'a [u32],
    pub f: &'a [u64],
    pub back: &'a [u64],
    pub route: &'a [u16],
    pub next: &'a [u16],
    pub n: usize,
}
