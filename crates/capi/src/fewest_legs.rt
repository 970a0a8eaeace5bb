// Fewest stops: the checker of a proposal, and our own proposer.
ghost use Rattle.std.specs.Prelude.{◌≡◌};
ghost use Rattle.floor.specs.Refusals.{answer_number};
ghost use Rattle.legs.specs.Answer.{check_answer};
ghost use Rattle.capi.specs.Legs.{ProposesTo};

use crate::ThinResult;

// The checker of a proposal.
pub fn lurfanzi_check_legs(
    width: u32,
    height: u32,
    map: &[u8],
    list: &[u16],
    n: usize,
    kept: &[u16],
    count: usize,
    legs: &[u16],
) -> u8
    ensures { result ≡ answer_number (check_answer width height map.now list.now n
        kept.now count legs.now) }
{
    let c = legs::check(
        width as usize,
        height as usize,
        map,
        list,
        n,
        kept,
        count,
        legs,
    );
    floor::answer_number(c)
}

// Our own proposer.
pub fn lurfanzi_fewest_legs(
    width: u32,
    height: u32,
    map: &[u8],
    list: &[u16],
    kept: &mut [u16],
    legs: &mut [u16],
    n: usize,
) -> ThinResult
    ensures { ProposesTo width height map.now list.now kept.old
        legs.old n result kept.new legs.new }
{
    let t = legs::propose(width as usize, height as usize, map, list, kept, legs, n);
    ThinResult {
        kept: t.unwrap_or(0),
        answer: floor::answer_number(t),
    }
}
