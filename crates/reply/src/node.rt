// The replies: an opening, and what answers a node query.
ghost use Rattle.std.specs.Prelude.{true, ◌≡◌, length};
ghost use Rattle.refusal.specs.Answer.{answer_of};
ghost use Rattle.message.specs.Messages.{encode, literal};
ghost use Rattle.message_writer.specs.Writing.{Written};
ghost use Rattle.node_table.specs.Entries.{entry_at};
ghost use Rattle.node_table.specs.Nodes.{inside};
ghost use Rattle.protocol.specs.Lent.{read_only};
ghost use Rattle.protocol.specs.Nodes.{block_in};
ghost use Rattle.protocol.specs.Sender.{opening_reply};
ghost use Rattle.reply.specs.Parts.{Writable, composed_by, node_reply_of};

use crate::plan::{Plan, plan_node};
use crate::query::NodeQuery;
use refusal::Refusal;
use setup::Lent;
use tree::Settings;

// Writes the opening of a session.
pub fn opening(
    settings: Settings,
    lent: Lent,
    session: u64,
    buffer: &mut [u8],
) -> Result<usize, Refusal>
    ensures { Written buffer.old buffer.new (encode (opening_reply settings (read_only lent.entry) session)) (answer_of result) }
{
    let length = lent.string.len() as u64;
    let root = node_table::node_id(lent.nodes, 0);
    message_writer::write_opening(
        buffer,
        session,
        partition::RULE_NUMBER,
        settings.window,
        settings.fan_out,
        settings.levels,
        settings.nominal,
        settings.width,
        length,
        root,
        lent.cells,
    )
}

// Writes the bytes of the node of entry k.
fn write_bytes(lent: Lent, asked: NodeQuery, k: usize, buffer: &mut [u8]) -> Result<usize, Refusal>
    requires { inside (length lent.string.now) (entry_at lent.nodes.now k) ≡ true }
    ensures { Written buffer.old buffer.new (encode (literal asked.session asked.level asked.id
        (block_in lent.entry.string.now (entry_at lent.entry.nodes.now k)))) (answer_of result) }
{
    let start = node_table::node_start(lent.nodes, k) as usize;
    let length = node_table::node_length(lent.nodes, k) as usize;
    message_writer::write_literal(
        buffer,
        asked.session,
        asked.level,
        asked.id,
        &lent.string[start..start + length],
    )
}

// Writes the composition that is planned.
fn write_references(plan: Plan, asked: NodeQuery, buffer: &mut [u8]) -> Result<usize, Refusal>
    requires { Writable plan }
    ensures { Written buffer.old buffer.new (encode (composed_by plan asked.session asked.level asked.id)) (answer_of result) }
{
    let count = plan.references.count;
    let indexes = plan.references.indexes;
    let counts = plan.references.counts;
    message_writer::write_composition(
        buffer,
        asked.session,
        asked.level,
        asked.id,
        plan.trail,
        &indexes[..count],
        &counts[..count],
    )
}

// Writes what answers a node query.
pub fn node_reply(
    settings: Settings,
    lent: Lent,
    asked: NodeQuery,
    buffer: &mut [u8],
) -> Result<usize, Refusal>
    ensures { Written buffer.old buffer.new
        (encode (node_reply_of settings (read_only lent.entry) asked.session asked.level asked.id)) (answer_of result) }
{
    let level = asked.level;
    let k = node_table::find(lent.nodes, lent.string.len(), level, level, asked.id);
    if node_table::node_id(lent.nodes, k) == 0 {
        return message_writer::write_none(buffer, asked.session, level, asked.id);
    }
    if let Some(plan) = plan_node(settings, lent, level, k) {
        return write_references(plan, asked, buffer);
    }
    write_bytes(lent, asked, k, buffer)
}
