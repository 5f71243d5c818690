// What the reply about a node says, decided before anything is written.
ghost use Rattle.std.specs.Prelude.{◌&&◌, ◌≡◌, ◌+◌, ◌/◌, ◌<◌, length};
ghost use Rattle.shingle.specs.Table.{shingles_in};
ghost use Rattle.protocol.specs.Sender.{has_number, refs_of, referable};
ghost use Rattle.reply.specs.Parts.{Planned, NodePlanned};

use crate::child::collect;
use crate::reference::{References, refer};
use setup::Lent;
use tree::Settings;

// The greatest trail number that is sent.
const LAST_NUMBER: u64 = 4095;

// A composition by these references, with the number of the children's trail, which the only trail leaves out.
#[derive(Clone, Copy)]
pub struct Plan {
    pub trail: Option<u64>,
    pub references: References,
}

// Plans the reply about a node whose children have that level and these ids, if they can be numbered and referred to.
fn plan_children(shingles: &[u8], level: u64, ids: &[u64]) -> Option<Plan>
    ensures { Planned (has_number ids.now && referable (shingles_in shingles.now) level ids.now)
        ids.now (refs_of (shingles_in shingles.now) level ids.now) result }
{
    let order = trail::number(ids).ok()?;
    if LAST_NUMBER < order.place {
        return None;
    }
    let references = refer(shingles, level, ids)?;
    Some(Plan {
        trail: (!order.only).then_some(order.place),
        references,
    })
}

// Plans the reply about the node of entry k, which has that level. Where there is no plan, the reply is the node's bytes.
pub fn plan_node(settings: Settings, lent: Lent, level: u64, k: usize) -> Option<Plan>
    requires { k < length lent.nodes.now / 16 }
    ensures { NodePlanned settings (length lent.entry.string.now) lent.entry.nodes.now lent.entry.shingles.now level k result }
{
    if settings.levels <= level {
        return None;
    }
    let found = collect(lent.nodes, lent.string.len(), level, k + 1)?;
    let count = found.count;
    let ids = found.ids;
    plan_children(lent.shingles, level + 1, &ids[..count])
}
