// The questions that an opening is asked before its sketch.
ghost use Rattle.std.specs.Prelude.{◌≡◌};
ghost use Rattle.refusal.specs.Answer.{refused_by};
ghost use Rattle.tree.specs.Questions.{ask};
ghost use Rattle.announced.specs.Judging.{same_settings, length_fits};

use refusal::Refusal;
use tree::Settings;

// The greatest length of a string.
const LONGEST: u64 = 65536;

// Question 12: whether rule and settings equal the own.
#[tactic(auto, unfolding(crate::specs::Judging::same_settings))]
pub fn same(settings: Settings, rule: u64, announced: Settings) -> bool
    ensures { result ≡ same_settings settings rule announced.window announced.fan_out
        announced.levels announced.nominal announced.width }
{
    rule == partition::RULE_NUMBER && announced == settings
}

// Question 13: whether the announced length is at most 65,536 and at most the room of the output lent.
#[tactic(auto, unfolding(crate::specs::Judging::length_fits))]
pub fn fits(length: u64, room: usize) -> bool
    ensures { result ≡ length_fits length room }
{
    length <= LONGEST && length <= room as u64
}

// The first of the two with a no.
#[tactic(auto, unfolding(tree::specs::Questions::ask))]
pub fn first_no(same: bool, fits: bool) -> Result<(), Refusal>
    ensures { refused_by result ≡ ask same 12 (ask fits 13 0) }
{
    if !same {
        return Err(Refusal::OtherSettings);
    }
    if !fits {
        return Err(Refusal::OutputLength);
    }
    Ok(())
}
