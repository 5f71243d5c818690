// The two numbers that a level's cutting goes by, and the cuts of a node's bytes by them.
ghost use Rattle.std.specs.Prelude.{◌≡◌, ◌≤◌};
ghost use Rattle.partition.specs.Found.{Found};
ghost use Rattle.tree.specs.Bounds.{Power, Granted};
ghost use Rattle.tree.specs.Questions.{spacing, modulus};

use super::Settings;
use partition::Cuts;

// The base to the power of the exponent.
pub fn power(base: u64, exponent: u64) -> u64
    requires le_base { 1 ≤ base }
    requires base_bound { base ≤ 8 }
    requires exponent_bound { exponent ≤ 4 }
    ensures { Power base exponent result }
{
    base.pow(exponent as u32)
}

// The cuts of a node's bytes by the rule of level l, its children's level.
pub fn cuts_at(settings: Settings, l: u64, bytes: &[u8]) -> Cuts
    requires granted { Granted settings }
    requires le_l { 1 ≤ l }
    requires l_le_levels { l ≤ settings.levels }
    ensures { Found settings.window (spacing settings l) (modulus settings l) bytes.now result.n result.at }
{
    let h = settings.nominal / power(settings.fan_out, l);
    let s = settings.window * power(settings.fan_out, settings.levels - l + 1);
    partition::find_cuts(bytes, settings.window as usize, h as usize, s)
}
