// Mending a damaged sheet, for C.
ghost use Rattle.std.specs.Prelude.{◌≡◌};
ghost use Rattle.paths.specs.Sheet.{sheet_of};
ghost use Rattle.mending.specs.Mending.{mend_slices_of};
ghost use Rattle.capi.specs.Mending.{MendsTo};

use mending::Differences;
use paths::Sheet;

// The answer; `n`, the number of points of the true route, 0 at every answer but 0; and for each slice the number of
// places where the damaged one and the true one differ, 0 at every answer but 0 and 7.
#[repr(C)]
#[derive(Clone, Copy)]
pub struct MendResult {
    pub n: usize,
    pub d: usize,
    pub e: usize,
    pub f: usize,
    pub back: usize,
    pub route: usize,
    pub next: usize,
    pub answer: u8,
}

// Mending a damaged sheet.
pub fn lurfanzi_mend(
    width: u32,
    height: u32,
    map: &[u8],
    neighbourhood: u32,
    a: u32,
    b: u32,
    old_d: &[u32],
    old_e: &[u32],
    old_f: &[u64],
    old_back: &[u64],
    old_route: &[u16],
    old_next: &[u16],
    d: &mut [u32],
    e: &mut [u32],
    f: &mut [u64],
    back: &mut [u64],
    route: &mut [u16],
    next: &mut [u16],
    work: &mut [u32],
) -> MendResult
    ensures { MendsTo width height map.now neighbourhood a b
        (sheet_of old_d.now old_e.now old_f.now old_back.now
        old_route.now old_next.now 0)
        (mend_slices_of d.old e.old f.old back.old route.old
        next.old work.old) result
        (mend_slices_of d.new e.new f.new back.new route.new
        next.new work.new) }
{
    let m = mending::mend(
        width as usize,
        height as usize,
        map,
        neighbourhood as usize,
        a as usize,
        b as usize,
        Sheet {
            d: old_d,
            e: old_e,
            f: old_f,
            back: old_back,
            route: old_route,
            next: old_next,
            n: 0,
        },
        d,
        e,
        f,
        back,
        route,
        next,
        work,
    );
    let c = m.map_or(Differences::default(), |mended| mended.differences);
    MendResult {
        n: m.map_or(0, |mended| mended.points.unwrap_or(0)),
        d: c.d,
        e: c.e,
        f: c.f,
        back: c.back,
        route: c.route,
        next: c.next,
        answer: mending::mend_number(m),
    }
}
