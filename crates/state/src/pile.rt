// The places of the pile of pending nodes: children pushed, and the places above the top.
ghost use Rattle.std.specs.Prelude.{◌≡◌, ◌+◌, ◌≤◌, take};
ghost use Rattle.copying.specs.Copying.{pile_of};
ghost use Rattle.state.specs.Pushing.{placed};
ghost use Rattle.state.specs.Receivers.{places_of};

use copying::Waiting;

// Writes the first `count` ids into the places from `waiting` on, the last of them first.
pub fn place(
    pile: [Waiting; 128],
    waiting: usize,
    level: u64,
    ids: [u64; 32],
    count: usize,
) -> [Waiting; 128]
    requires { (count ≤ 32) × (waiting + count ≤ 128) }
    ensures { result ≡ placed pile waiting level (take count ids) }
{
    let mut places = pile;
    for k in 0..count {
        let id = ids[count - 1 - k];
        places[waiting + k] = Waiting { level, id };
    }
    places
}

// Makes every place above the top a zero entry.
pub fn clear_above(pile: [Waiting; 128], waiting: usize) -> [Waiting; 128]
    ensures { result ≡ places_of (pile_of waiting pile) }
{
    let mut cleared = pile;
    for above in waiting..128 {
        cleared[above] = Waiting { level: 0, id: 0 };
    }
    cleared
}
