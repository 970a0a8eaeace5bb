// A damaged sheet mended.
ghost use Rattle.paths.specs.Sheet.{sheet_of};
ghost use Rattle.mending.specs.Mending.{mend_slices_of};
ghost use Rattle.capi.specs.Mending.{MendsTo};

use capi::mend::MendResult;

// Mending a damaged sheet.
#[unsafe(no_mangle)]
pub extern "C" fn lurfanzi_mend(
    width: u32,
    height: u32,
    map: &[u8],
    neighbourhood: u32,
    a: u32,
    b: u32,
    old_d: &[u32],
    old_e: &[u32],
    old_f: &[u64],
    old_back: &[u64],
    old_route: &[u16],
    old_next: &[u16],
    d: &mut [u32],
    e: &mut [u32],
    f: &mut [u64],
    back: &mut [u64],
    route: &mut [u16],
    next: &mut [u16],
    work: &mut [u32],
) -> MendResult
    ensures { MendsTo width height map.now neighbourhood a b
        (sheet_of old_d.now old_e.now old_f.now old_back.now
        old_route.now old_next.now 0)
        (mend_slices_of d.old e.old f.old back.old route.old
        next.old work.old) result
        (mend_slices_of d.new e.new f.new back.new route.new
        next.new work.new) }
{
    capi::mend::lurfanzi_mend(
        width,
        height,
        map,
        neighbourhood,
        a,
        b,
        old_d,
        old_e,
        old_f,
        old_back,
        old_route,
        old_next,
        d,
        e,
        f,
        back,
        route,
        next,
        work,
    )
}
