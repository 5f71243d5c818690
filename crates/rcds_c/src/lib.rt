// The library for C, built as librcds.a: each call of the crate rcds, under the same name and with the same clauses.
// include/rcds.h declares these functions.
#![tactic(auto)]

ghost use Rattle.std.specs.Prelude.{[], ◌≡◌, length};
ghost use Rattle.crossing.specs.Crossing.{Crossed};
ghost use Rattle.message.specs.Messages.{parse};
ghost use Rattle.message.specs.Reading.{type_answer};
ghost use Rattle.most_blocks.specs.Most.{most_answer};
ghost use Rattle.reply.specs.Reply.{Replied};
ghost use Rattle.sender.specs.State.{settings_in, SenderSetUp};
ghost use Rattle.state_bytes.specs.Bytes.{state_in};
ghost use Rattle.receiver.specs.Calls.{Asked};
ghost use Rattle.held.specs.Held.{HeldSetUp, HeldTakes};
ghost use Rattle.opening.specs.Opened.{Opened};
ghost use Rattle.protocol.specs.Lent.{lent};
ghost use Rattle.strata.specs.Calls.{Built, Estimated};
ghost use Rattle.tree.specs.Table.{Tabled};
ghost use Rattle.rcds.specs.Calls.{tree_settings, settings_of_call};
ghost use Rattle.rcds.specs.Trails.{trail_number_answer, Ordered};

// Cuts a string into its tree of blocks and writes the tree to the node table. Asked are 1 to 4, 6, 7 of the node table, and 8.
#[unsafe(no_mangle)]
pub extern "C" fn rcds_tree(
    w: u64,
    p: u64,
    levels: u64,
    nominal: u64,
    string: &[u8],
    nodes: &mut [u8],
) -> u64
    ensures { Tabled (tree_settings w p levels nominal) string.now nodes.old nodes.new result }
{
    rcds::rcds_tree(w, p, levels, nominal, string, nodes)
}

// Writes the nodes that share a byte with a range of the string, each with its parent. Asked are 21 and 22.
#[unsafe(no_mangle)]
pub extern "C" fn rcds_crossed(
    string: &[u8],
    nodes: &[u8],
    start: u64,
    size: u64,
    crossed: &mut [u8],
) -> u64
    ensures { Crossed (length string.now) nodes.now start size crossed.old crossed.new result }
{
    rcds::rcds_crossed(string, nodes, start, size, crossed)
}

// The most blocks that one cutting of n bytes gives. Asked is 24.
#[unsafe(no_mangle)]
pub extern "C" fn rcds_most_blocks(n: u64, w: u64, h: u64) -> u64
    ensures { result ≡ most_answer n w h }
{
    rcds::rcds_most_blocks(n, w, h)
}

// The number of the order that the ids give, each 8 bytes: 2^32 more than how many trails over its pairs come before it, and 2^33 more
// where it is the only one; or 17.
#[unsafe(no_mangle)]
pub extern "C" fn rcds_trail_number(ids: &[u8]) -> u64
    ensures { result ≡ trail_number_answer ids.now }
{
    rcds::rcds_trail_number(ids)
}

// Writes the order of a number over pairs: entries of three rows, previous id, own id, count. Asked are 17 and 20. The answer is 2^33
// more where it is the only one.
#[unsafe(no_mangle)]
pub extern "C" fn rcds_trail_order(pairs: &[u8], number: u64, ids: &mut [u8]) -> u64
    ensures { Ordered pairs.now number ids.old ids.new result }
{
    rcds::rcds_trail_order(pairs, number, ids)
}

// The type of a well-formed message, 2^32 more, or 10.
#[unsafe(no_mangle)]
pub extern "C" fn rcds_message_type(message: &[u8]) -> u64
    ensures { result ≡ type_answer (parse message.now) }
{
    rcds::rcds_message_type(message)
}

// Sets a sender up: fills its three tables from the string, and writes its settings to its state. Asked are 1 to 8.
#[unsafe(no_mangle)]
pub extern "C" fn rcds_sender_setup(
    window: u64,
    fan_out: u64,
    levels: u64,
    nominal: u64,
    width: u64,
    string: &[u8],
    nodes: &mut [u8],
    shingles: &mut [u8],
    cells: &mut [u8],
    state: &mut [u8],
) -> u64
    ensures { SenderSetUp (settings_of_call window fan_out levels nominal width) string.now nodes.old nodes.new
        shingles.old shingles.new cells.old cells.new state.old state.new result }
{
    rcds::rcds_sender_setup(
        window, fan_out, levels, nominal, width, string, nodes, shingles, cells, state,
    )
}

// Writes a sender's reply to a message. Asked are 1 to 7, 10, 11 and 20.
#[unsafe(no_mangle)]
pub extern "C" fn rcds_reply(
    state: &[u8],
    string: &[u8],
    nodes: &[u8],
    shingles: &[u8],
    cells: &[u8],
    message: &[u8],
    out: &mut [u8],
) -> u64
    ensures { Replied (settings_in state.now) string.now nodes.now shingles.now
        cells.now message.now out.old out.new result }
{
    rcds::rcds_reply(state, string, nodes, shingles, cells, message, out)
}

// Sets a receiver up: fills its three tables from its own string, and writes the state of a new session. Asked are 1 to 8.
#[unsafe(no_mangle)]
pub extern "C" fn rcds_receiver_setup(
    window: u64,
    fan_out: u64,
    levels: u64,
    nominal: u64,
    width: u64,
    session: u64,
    own: &[u8],
    nodes: &mut [u8],
    shingles: &mut [u8],
    cells: &mut [u8],
    state: &mut [u8],
) -> u64
    ensures { HeldSetUp (settings_of_call window fan_out levels nominal width) session own.now nodes.old nodes.new
        shingles.old shingles.new cells.old cells.new state.old state.new result }
{
    rcds::rcds_receiver_setup(
        window, fan_out, levels, nominal, width, session, own, nodes, shingles, cells, state,
    )
}

// Writes a receiver's outstanding query. Asked are 1 to 7, 9 and 20.
#[unsafe(no_mangle)]
pub extern "C" fn rcds_query(
    state: &[u8],
    own: &[u8],
    nodes: &[u8],
    shingles: &[u8],
    cells: &[u8],
    out: &mut [u8],
) -> u64
    ensures { Asked (state_in state.now) own.now nodes.now shingles.now cells.now
        out.old out.new result }
{
    rcds::rcds_query(state, own, nodes, shingles, cells, out)
}

// Takes a message. Asked are 1 to 7, 9 to 11, and 12 to 19.
#[unsafe(no_mangle)]
pub extern "C" fn rcds_take(
    state: &mut [u8],
    own: &[u8],
    nodes: &[u8],
    shingles: &mut [u8],
    cells: &[u8],
    message: &[u8],
    output: &mut [u8],
) -> u64
    ensures { HeldTakes state.old state.new own.now nodes.now shingles.old
        shingles.new cells.now message.now output.old output.new result }
{
    rcds::rcds_take(state, own, nodes, shingles, cells, message, output)
}

// Opens a sketch over the own shingle list. Asked are 3, 5, 7 of the three tables, and 14.
#[unsafe(no_mangle)]
pub extern "C" fn rcds_sketch_open(
    levels: u64,
    width: u64,
    theirs: &[u8],
    own: &[u8],
    shingles: &mut [u8],
) -> u64
    ensures { Opened levels width theirs.now own.now shingles.old shingles.new result }
{
    rcds::rcds_sketch_open(levels, width, theirs, own, shingles)
}

// Writes the strata of the shingle table's list. Asked are 1 to 7.
#[unsafe(no_mangle)]
pub extern "C" fn rcds_strata_build(
    state: &[u8],
    string: &[u8],
    nodes: &[u8],
    shingles: &[u8],
    cells: &[u8],
    strata: &mut [u8],
) -> u64
    ensures { Built (settings_in state.now) (lent string.now nodes.now shingles.now
        cells.now []) strata.old strata.new result }
{
    rcds::rcds_strata_build(state, string, nodes, shingles, cells, strata)
}

// About how many shingles differ, from the other end's strata, the own ones and the own list. Asked are 1 to 7.
#[unsafe(no_mangle)]
pub extern "C" fn rcds_strata_estimate(
    state: &[u8],
    string: &[u8],
    nodes: &[u8],
    shingles: &[u8],
    cells: &[u8],
    theirs: &[u8],
    own: &[u8],
) -> u64
    ensures { Estimated (settings_in state.now) (lent string.now nodes.now shingles.now
        cells.now []) theirs.now own.now result }
{
    rcds::rcds_strata_estimate(state, string, nodes, shingles, cells, theirs, own)
}
