// Fewest stops: the checker of a proposal for thinning a list of vertices, and our own proposer. A leg leads from a
// position of the list to a later one that it sees.
//
// Both go through the pairs of positions, so their cost is quadratic at worst: with 16,384 positions 134 million pairs.
// The numbers of legs of a pair are compared before sight is asked. Of positions i < j it is asked only where j has
// fewer legs left than any position that i was found to see. These are the pairs that any method by sight must ask,
// where a leg to j would leave i with fewer legs than its number says, and for each i some positions that have one leg
// fewer left, until one is seen: first those whose vertices are near, then all, in the order of the list.
#![tactic(auto)]

ghost use Rattle.std.specs.Prelude.{◌≡◌};
ghost use Rattle.legs.specs.Answer.{legs_shape, check_answer, Proposes};

use floor::{FloorPlan, Refusal};
use leg_list::LegList;
use thinning::PointList;

mod ahead; // ahead.rt: the fewest legs left at a position to which one leg leads
mod checking; // checking.rt: the tests of a proposal
mod leg_list; // leg_list.rt: a joined list with a number for each of its positions
mod near; // near.rt: one leg fewer, sought near a position
mod numbers; // numbers.rt: the numbers of a slice, and the least of some
mod proposing; // proposing.rt: our own proposal

// The refusals over floor, list and the lengths of the two proposed slices. Where the first has another length than the
// list slice, the thinning's refusals end with 6 at the latest.
// Kept: what may not change: the parameters of `check` and `propose`, which it hands on to `list_shape`.
#[tactic(auto, unfolding(crate::specs::Answer::legs_shape, thinning::specs::Answer::list_shape))]
fn legs_shape(
    w: usize,
    h: usize,
    map: &[u8],
    list: &[u16],
    kept: usize,
    legs: usize,
    n: usize,
) -> Result<(), Refusal>
    ensures { result ≡ legs_shape w h map.now list.now kept legs n }
{
    let places = if kept == list.len() { legs } else { kept };
    thinning::list_shape(w, h, map, list, places, n)
}

// Whether a proposal is accepted: the kept positions, `count` of them, and for every position of the list the fewest
// legs from there to the end. All slices are read only, and no other memory is used.
// Kept: what may not change: the parameters of `check`.
#[tactic(auto, unfolding(crate::specs::Answer::check_answer))]
pub fn check<'a>(
    w: usize,
    h: usize,
    map: &'a [u8],
    list: &'a [u16],
    n: usize,
    kept: &[u16],
    count: usize,
    legs: &'a [u16],
) -> Result<(), Refusal>
    ensures { result ≡ check_answer w h map.now list.now n kept.now count
        legs.now }
{
    legs_shape(w, h, map, list, kept.len(), legs.len(), n)?;
    let points = PointList {
        floor: FloorPlan { w, h, map },
        list,
        n,
    };
    if !(LegList { points, legs }).true_choice(kept, count) {
        return Err(Refusal::FalseChoice);
    }
    Ok(())
}

// Our own proposal: `kept` holds the positions, of equals the farthest, and `legs` the fewest legs from each position,
// both then 0. The answer is how many positions are kept. A refusal writes nothing; the list is never written.
// Kept: what may not change: the parameters of `propose`.
pub fn propose<'a>(
    w: usize,
    h: usize,
    map: &'a [u8],
    list: &'a [u16],
    kept: &mut [u16],
    legs: &mut [u16],
    n: usize,
) -> Result<usize, Refusal>
    ensures { Proposes w h map.now list.now kept.old legs.old n result
        kept.new legs.new }
{
    legs_shape(w, h, map, list, kept.len(), legs.len(), n)?;
    let points = PointList {
        floor: FloorPlan { w, h, map },
        list,
        n,
    };
    Ok(proposing::fill(points, kept, legs))
}
