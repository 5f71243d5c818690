// Question 9, of the numbers and places of a state.
ghost use Rattle.std.specs.Prelude.{◌≡◌, ◌≤◌};
ghost use Rattle.copying.specs.Copying.{pile_of};
ghost use Rattle.protocol.specs.State.{shallow};
ghost use Rattle.state.specs.Receivers.{runs};

use copying::Waiting;

// Whether none of the pending nodes is of a level above L.
fn all_shallow(levels: u64, waiting: usize, pile: [Waiting; 128]) -> bool
    requires { waiting ≤ 128 }
    ensures { result ≡ shallow levels (pile_of waiting pile) }
{
    pile[..waiting].iter().all(|place| place.level <= levels)
}

// Not ended, after the opening not without pending nodes, at most 128 of them, and none of a level above L.
pub fn still_running(levels: u64, phase: u64, waiting: usize, pile: [Waiting; 128]) -> bool
    ensures { result ≡ runs levels phase waiting pile }
{
    if 1 < phase {
        return false;
    }
    if 128 < waiting {
        return false;
    }
    if waiting == 0 {
        return phase == 0;
    }
    all_shallow(levels, waiting, pile)
}
