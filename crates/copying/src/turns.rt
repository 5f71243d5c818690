// One pending node after the other: copied if it is an own one.
ghost use Rattle.std.specs.Prelude.{◌≤◌, length};
ghost use Rattle.copying.specs.Copying.{Zeroed, Copies};

use super::{Copied, Waiting, find, output};

// Zeroes the output: it would have got too long.
pub fn too_long(output: &mut [u8]) -> Option<Copied>
    ensures { Zeroed output.old output.new result }
{
    rows::clear(output, 0);
    None
}

// Copies while the last pending node is an own one.
pub fn copy_known(
    string: &[u8],
    nodes: &[u8],
    size: usize,
    output: &mut [u8],
    built: usize,
    waiting: usize,
    pile: [Waiting; 128],
) -> Option<Copied>
    requires { (size ≤ length output.old) × ((built ≤ size) × (waiting ≤ 128)) }
    ensures { Copies string.now nodes.now size output.old output.new built waiting pile result }
{
    let mut at = built;
    for below in (0..waiting).rev() {
        let top = pile[below];
        let Some(place) = find(string, nodes, top.id) else {
            return Some(Copied {
                built: at,
                waiting: below + 1,
            });
        };
        let start = place.start;
        let more = place.size;
        if size - at < more {
            return too_long(output);
        }
        output::append(&mut output[at..], &string[start..start + more]);
        at += more;
    }
    Some(Copied {
        built: at,
        waiting: 0,
    })
}
