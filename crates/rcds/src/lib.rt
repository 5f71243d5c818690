// What the drive's firmware calls from C: numbers and lent bytes. include/rcds.h declares these functions.
#![tactic(auto)]

mod ids;

ghost use Rattle.std.specs.Prelude.{[], ◌≡◌, length};
ghost use Rattle.crossing.specs.Crossing.{Crossed};
ghost use Rattle.message.specs.Messages.{parse};
ghost use Rattle.message.specs.Reading.{type_answer};
ghost use Rattle.most_blocks.specs.Most.{most_answer};
ghost use Rattle.reply.specs.Reply.{Replied};
ghost use Rattle.sender.specs.State.{settings_in, SenderSetUp};
ghost use Rattle.state_bytes.specs.Bytes.{state_in};
ghost use Rattle.receiver.specs.Calls.{Asked};
ghost use Rattle.held.specs.Held.{HeldSetUp, HeldTakes};
ghost use Rattle.opening.specs.Opened.{Opened};
ghost use Rattle.protocol.specs.Lent.{lent};
ghost use Rattle.strata.specs.Calls.{Built, Estimated};
ghost use Rattle.tree.specs.Table.{Tabled};
ghost use Rattle.rcds.specs.Calls.{tree_settings, settings_of_call};
ghost use Rattle.rcds.specs.Trails.{trail_number_answer, Ordered};

use refusal::Refusal;
use setup::Lent;
use state::Progress;
use trail::Pairs;
use tree::Settings;

// Cuts a string into its tree of blocks and writes the tree to the node table. Asked are 1 to 4, 6, 7 of the node table, and 8.
pub fn rcds_tree(w: u64, p: u64, levels: u64, nominal: u64, string: &[u8], nodes: &mut [u8]) -> u64
    ensures { Tabled (tree_settings w p levels nominal) string.now nodes.old nodes.new result }
{
    let settings = Settings {
        window: w,
        fan_out: p,
        levels,
        nominal,
        width: 1,
    };
    refusal::answer(tree::cut_string(settings, string, nodes))
}

// Writes the nodes that share a byte with a range of the string, each with its parent. Asked are 21 and 22.
pub fn rcds_crossed(string: &[u8], nodes: &[u8], start: u64, size: u64, crossed: &mut [u8]) -> u64
    ensures { Crossed (length string.now) nodes.now start size crossed.old crossed.new result }
{
    refusal::answer(crossing::crossed(string, nodes, start, size, crossed))
}

// The most blocks that one cutting of n bytes gives. Asked is 24.
pub fn rcds_most_blocks(n: u64, w: u64, h: u64) -> u64
    ensures { result ≡ most_answer n w h }
{
    refusal::answer(most_blocks::most_blocks(n, w, h))
}

// The number of the order that the ids give, each 8 bytes: 2^32 more than how many trails over its pairs come before it, and 2^33 more
// where it is the only one; or 17.
pub fn rcds_trail_number(ids: &[u8]) -> u64
    ensures { result ≡ trail_number_answer ids.now }
{
    if ids.len() % 8 != 0 {
        return Refusal::Order.number();
    }
    let k = ids.len() / 8;
    if 32 < k {
        return Refusal::Order.number();
    }
    let list = ids::read_column(ids, 1, 0);
    match trail::number(&list[..k]) {
        Ok(order) => ids::mark(refusal::ACCEPTED + order.place, order.only),
        Err(refusal) => refusal.number(),
    }
}

// Writes the order of a number over pairs: entries of three rows, previous id, own id, count. Asked are 17 and 20. The answer is 2^33
// more where it is the only one.
pub fn rcds_trail_order(pairs: &[u8], number: u64, ids: &mut [u8]) -> u64
    ensures { Ordered pairs.now number ids.old ids.new result }
{
    if pairs.len() % 24 != 0 {
        return Refusal::Order.number();
    }
    if 768 < pairs.len() {
        return Refusal::Order.number();
    }
    let previous = ids::read_column(pairs, 3, 0);
    let own = ids::read_column(pairs, 3, 1);
    let count = ids::read_column(pairs, 3, 2);
    let pairs = Pairs {
        previous,
        own,
        count,
    };
    let trail = match trail::order(pairs, number) {
        Ok(trail) => trail,
        Err(refusal) => return refusal.number(),
    };
    let k = trail.k;
    if ids.len() / 8 < k {
        return Refusal::Buffer.number();
    }
    let list = trail.ids;
    ids::write_ids(list, k, ids);
    ids::mark(refusal::ACCEPTED + k as u64, trail.only)
}

// The type of a well-formed message, 2^32 more, or 10.
pub fn rcds_message_type(message: &[u8]) -> u64
    ensures { result ≡ type_answer (parse message.now) }
{
    refusal::answer(message::reader::message_type(message))
}

// Sets a sender up: fills its three tables from the string, and writes its settings to its state. Asked are 1 to 8.
pub fn rcds_sender_setup(
    window: u64,
    fan_out: u64,
    levels: u64,
    nominal: u64,
    width: u64,
    string: &[u8],
    nodes: &mut [u8],
    shingles: &mut [u8],
    cells: &mut [u8],
    state: &mut [u8],
) -> u64
    ensures { SenderSetUp (settings_of_call window fan_out levels nominal width) string.now nodes.old nodes.new
        shingles.old shingles.new cells.old cells.new state.old state.new result }
{
    let settings = Settings {
        window,
        fan_out,
        levels,
        nominal,
        width,
    };
    refusal::answer(sender::setup(settings, string, nodes, shingles, cells, state))
}

// Writes a sender's reply to a message. Asked are 1 to 7, 10, 11 and 20.
pub fn rcds_reply(
    state: &[u8],
    string: &[u8],
    nodes: &[u8],
    shingles: &[u8],
    cells: &[u8],
    message: &[u8],
    out: &mut [u8],
) -> u64
    ensures { Replied (settings_in state.now) string.now nodes.now shingles.now
        cells.now message.now out.old out.new result }
{
    let lent = Lent {
        string,
        nodes,
        shingles,
        cells,
    };
    refusal::answer(sender::reply(state, lent, message, out))
}

// Sets a receiver up: fills its three tables from its own string, and writes the state of a new session. Asked are 1 to 8.
pub fn rcds_receiver_setup(
    window: u64,
    fan_out: u64,
    levels: u64,
    nominal: u64,
    width: u64,
    session: u64,
    own: &[u8],
    nodes: &mut [u8],
    shingles: &mut [u8],
    cells: &mut [u8],
    state: &mut [u8],
) -> u64
    ensures { HeldSetUp (settings_of_call window fan_out levels nominal width) session own.now nodes.old nodes.new
        shingles.old shingles.new cells.old cells.new state.old state.new result }
{
    let settings = Settings {
        window,
        fan_out,
        levels,
        nominal,
        width,
    };
    refusal::answer(held::setup(settings, session, own, nodes, shingles, cells, state))
}

// Writes a receiver's outstanding query. Asked are 1 to 7, 9 and 20.
pub fn rcds_query(
    state: &[u8],
    own: &[u8],
    nodes: &[u8],
    shingles: &[u8],
    cells: &[u8],
    out: &mut [u8],
) -> u64
    ensures { Asked (state_in state.now) own.now nodes.now shingles.now cells.now
        out.old out.new result }
{
    let lent = Lent {
        string: own,
        nodes,
        shingles,
        cells,
    };
    refusal::answer(held::query(state, lent, out))
}

// Takes a message. Asked are 1 to 7, 9 to 11, and 12 to 19.
pub fn rcds_take(
    state: &mut [u8],
    own: &[u8],
    nodes: &[u8],
    shingles: &mut [u8],
    cells: &[u8],
    message: &[u8],
    output: &mut [u8],
) -> u64
    ensures { HeldTakes state.old state.new own.now nodes.now shingles.old
        shingles.new cells.now message.now output.old output.new result }
{
    match held::take(state, own, nodes, shingles, cells, message, output) {
        Ok(Progress::Going) => 0,
        Ok(Progress::HandedOver(length)) => refusal::answer(Ok(length)),
        Err(refusal) => refusal.number(),
    }
}

// Opens a sketch over the own shingle list. Asked are 3, 5, 7 of the three tables, and 14.
pub fn rcds_sketch_open(
    levels: u64,
    width: u64,
    theirs: &[u8],
    own: &[u8],
    shingles: &mut [u8],
) -> u64
    ensures { Opened levels width theirs.now own.now shingles.old shingles.new result }
{
    refusal::answer(opening::open(levels, width, theirs, own, shingles))
}

// Writes the strata of the shingle table's list. Asked are 1 to 7.
pub fn rcds_strata_build(
    state: &[u8],
    string: &[u8],
    nodes: &[u8],
    shingles: &[u8],
    cells: &[u8],
    strata: &mut [u8],
) -> u64
    ensures { Built (settings_in state.now) (lent string.now nodes.now shingles.now
        cells.now []) strata.old strata.new result }
{
    let settings = sender::settings_of(state);
    let lent = Lent {
        string,
        nodes,
        shingles,
        cells,
    };
    match strata::build(settings, lent, strata) {
        Ok(()) => 0,
        Err(refusal) => refusal.number(),
    }
}

// About how many shingles differ, from the other end's strata, the own ones and the own list. Asked are 1 to 7.
pub fn rcds_strata_estimate(
    state: &[u8],
    string: &[u8],
    nodes: &[u8],
    shingles: &[u8],
    cells: &[u8],
    theirs: &[u8],
    own: &[u8],
) -> u64
    ensures { Estimated (settings_in state.now) (lent string.now nodes.now shingles.now
        cells.now []) theirs.now own.now result }
{
    let settings = sender::settings_of(state);
    let lent = Lent {
        string,
        nodes,
        shingles,
        cells,
    };
    refusal::answer(strata::estimate(settings, lent, theirs, own))
}
