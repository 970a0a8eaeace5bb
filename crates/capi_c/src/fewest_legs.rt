// Fewest stops.
ghost use Rattle.std.specs.Prelude.{◌≡◌};
ghost use Rattle.floor.specs.Refusals.{answer_number};
ghost use Rattle.legs.specs.Answer.{check_answer};
ghost use Rattle.capi.specs.Legs.{ProposesTo};

use capi::ThinResult;

// The checker of a proposal.
#[unsafe(no_mangle)]
pub extern "C" fn lurfanzi_check_legs(
    width: u32,
    height: u32,
    map: &[u8],
    list: &[u16],
    n: usize,
    kept: &[u16],
    count: usize,
    legs: &[u16],
) -> u8
    ensures { result ≡ answer_number (check_answer width height map.now list.now n
        kept.now count legs.now) }
{
    capi::fewest_legs::lurfanzi_check_legs(width, height, map, list, n, kept, count, legs)
}

// Our own proposer.
#[unsafe(no_mangle)]
pub extern "C" fn lurfanzi_fewest_legs(
    width: u32,
    height: u32,
    map: &[u8],
    list: &[u16],
    kept: &mut [u16],
    legs: &mut [u16],
    n: usize,
) -> ThinResult
    ensures { ProposesTo width height map.now list.now kept.old
        legs.old n result kept.new legs.new }
{
    capi::fewest_legs::lurfanzi_fewest_legs(width, height, map, list, kept, legs, n)
}
