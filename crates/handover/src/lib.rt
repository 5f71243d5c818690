// What an accepted message comes to: own nodes are copied, and a string that is whole is handed over.
#![tactic(auto)]

ghost use Rattle.handover.specs.Handover.{ComesTo};

use copying::Waiting;
use refusal::Refusal;

// What an accepted message comes to: nodes are pending, so many and behind so many bytes that are built; or the string is whole, and is
// handed over.
#[derive(Clone, Copy)]
pub enum Outcome {
    Going { built: usize, waiting: usize },
    Whole { length: usize },
}

// Copies own nodes while the last pending node is one, and asks whether the output stays within the announced length; then, if none is
// pending any more, whether the string is the announced one: the id of the output's first bytes is worked out afresh. A no zeroes the
// output.
pub fn conclude(
    string: &[u8],
    nodes: &[u8],
    size: usize,
    root: u64,
    output: &mut [u8],
    built: usize,
    waiting: usize,
    pile: [Waiting; 128],
) -> Result<Outcome, Refusal>
    ensures { ComesTo string.now nodes.now size root output.old output.new built waiting pile result }
{
    let Some(copied) = copying::settle(string, nodes, size, output, built, waiting, pile) else {
        return Err(Refusal::Overflow);
    };
    let end = copied.built;
    if 0 < copied.waiting {
        return Ok(Outcome::Going {
            built: end,
            waiting: copied.waiting,
        });
    }
    if end != size || fnv::block_id(&output[..end]) != root {
        rows::clear(output, 0);
        return Err(Refusal::Id);
    }
    Ok(Outcome::Whole { length: end })
}
