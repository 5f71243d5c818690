// Question 17: whether a composition composes its node, and the children that it then gives.
#![tactic(auto)]

mod table;

ghost use Rattle.std.specs.Prelude.{◌≡◌};
ghost use Rattle.std.specs.Option.{is_some};
ghost use Rattle.shingle.specs.Table.{shingles_in};
ghost use Rattle.message.specs.Reading.{stated_by, references_at};
ghost use Rattle.protocol.specs.Numbers.{meant_by, rightly};
ghost use Rattle.composition.specs.Composition.{refs_in, composing, composed_children};

use message::reader::references_from;
use table::fill;
use tree::Settings;

// The children that a composition gives: how many, and their ids in order, zeros after them.
#[derive(Clone, Copy)]
pub struct Children {
    pub count: usize,
    pub ids: [u64; 32],
}

// The number of the trail that a composition means: that of the only one is 0.
#[tactic(auto, using(crate::proofs::Numbers::meant_is))]
fn meant(trail: Option<u64>) -> u64
    ensures { result ≡ meant_by (stated_by trail) }
{
    trail.unwrap_or(0)
}

// Whether the number is carried where there are other trails, and omitted where there are none.
#[tactic(auto, using(crate::proofs::Numbers::rightly_is))]
fn carried_rightly(trail: Option<u64>, only: bool) -> bool
    ensures { result ≡ rightly (stated_by trail) only }
{
    trail.is_none() == only
}

// The children of a node of that level, by the `count` references of a composition, which stand in the message, by its trail number if it
// carries one, and by a shingle table. `rest` is how many nodes are pending below the node. Where question 17 refuses there are none.
pub fn children_of(
    settings: Settings,
    shingles: &[u8],
    message: &[u8],
    level: u64,
    trail: Option<u64>,
    count: usize,
    rest: usize,
) -> Option<Children>
    ensures { composing result ≡ composed_children settings (shingles_in shingles.now) level (stated_by trail)
        (refs_in message.now (references_at (is_some trail)) count) rest }
{
    if settings.levels <= level || 32 < count {
        return None;
    }
    let references = references_from(trail);
    let pairs = fill(shingles, message, references, level + 1, count)?;
    let order = trail::order(pairs, meant(trail)).ok()?;
    if !carried_rightly(trail, order.only) || 128 - order.k < rest {
        return None;
    }
    let ids = order.ids;
    Some(Children {
        count: order.k,
        ids,
    })
}
