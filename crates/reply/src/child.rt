// The ids of a node's children, from the entries that follow it in the node table.
ghost use Rattle.std.specs.Prelude.{◌≡◌, ◌-◌, ◌/◌, length};
ghost use Rattle.node_table.specs.Nodes.{entries_from};
ghost use Rattle.protocol.specs.Sender.{child_ids};
ghost use Rattle.reply.specs.Parts.{role_at, Collected};

// The ids of children, so many from the front.
#[derive(Clone, Copy)]
pub struct Children {
    pub count: usize,
    pub ids: [u64; 32],
}

// What an entry is to a node of a level before it: an end, where neither it nor any after it is a descendant; passed over; or a child.
#[derive(Clone, Copy, PartialEq, Eq)]
enum Role {
    End,
    Passed,
    Child,
}

// The role of entry k for a node of that level.
fn role_of(nodes: &[u8], size: usize, level: u64, k: usize) -> Role
    ensures { result ≡ role_at nodes.now size level k }
{
    if node_table::node_id(nodes, k) == 0 {
        return Role::End;
    }
    let own = node_table::node_level(nodes, k);
    if own <= level {
        return Role::End;
    }
    if own - level != 1 {
        return Role::Passed;
    }
    if node_table::lies_inside(nodes, size, k) {
        return Role::Child;
    }
    Role::Passed
}

// The children of a node of that level whose entry stands before entry `from`, if they are at most 32.
pub fn collect(nodes: &[u8], size: usize, level: u64, from: usize) -> Option<Children>
    ensures { Collected (child_ids size level (entries_from nodes.now (length nodes.now / 16 - from) from)) result }
{
    let end = nodes.len() / 16;
    let mut ids = [0u64; 32];
    let mut count = 0;
    for k in from..end {
        match role_of(nodes, size, level, k) {
            Role::End => return Some(Children { count, ids }),
            Role::Passed => {}
            Role::Child => {
                if count == 32 {
                    return None;
                }
                ids[count] = node_table::node_id(nodes, k);
                count += 1;
            }
        }
    }
    Some(Children { count, ids })
}
