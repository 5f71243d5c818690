// The sender's reply to a message, over a string and the tables that it is lent.
#![tactic(auto)]

mod child;
mod node;
mod plan;
mod query;
mod reference;

ghost use Rattle.refusal.specs.Answer.{answer_of};
ghost use Rattle.reply.specs.Reply.{Replied};

use node::{node_reply, opening};
use query::{Query, query_of};
use refusal::Refusal;
use setup::Lent;
use tree::Settings;

// Replies to a message: the number of bytes written, and the bytes after them are untouched. Asked are 1 to 7 of the settings and of
// what is lent, 10, 11 and 20: the first that fails refuses, and the buffer is then as it was.
pub fn reply(
    settings: Settings,
    lent: Lent,
    message: &[u8],
    buffer: &mut [u8],
) -> Result<usize, Refusal>
    ensures { Replied settings lent.entry.string.now lent.entry.nodes.now lent.entry.shingles.now
        lent.entry.cells.now message.now buffer.old buffer.new (answer_of result) }
{
    lent.question(settings)?;
    let query = query_of(message::reader::read(message))?;
    match query {
        Query::Opening { session } => opening(settings, lent, session, buffer),
        Query::Node(asked) => node_reply(settings, lent, asked, buffer),
    }
}
