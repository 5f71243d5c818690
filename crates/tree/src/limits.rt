// The questions about settings, in two steps: 4 asks for a power that 1 to 3 keep small.
ghost use Rattle.std.specs.Prelude.{◌≡◌};
ghost use Rattle.refusal.specs.Answer.{refused_by};
ghost use Rattle.tree.specs.Bounds.{shape_refusal, size_refusal};
ghost use Rattle.tree.specs.Questions.{within};

use refusal::Refusal;

const SHORTEST_WINDOW: u64 = 2;

const LONGEST_WINDOW: u64 = 12;

const LEAST_FAN_OUT: u64 = 2;

const GREATEST_FAN_OUT: u64 = 8;

const FEWEST_LEVELS: u64 = 1;

const MOST_LEVELS: u64 = 4;

const GREATEST_LENGTH: u64 = 65536;

const LEAST_WIDTH: u64 = 1;

const GREATEST_WIDTH: u64 = 64;

const LONGEST_STRING: usize = 65536;

// Whether x lies from low to high.
fn within(low: u64, high: u64, x: u64) -> bool
    ensures { result ≡ within low high x }
{
    low <= x && x <= high
}

// Questions 1 to 3.
#[tactic(auto, unfolding(crate::specs::Questions::ask))]
pub fn shape_question(w: u64, p: u64, levels: u64) -> Result<(), Refusal>
    ensures { refused_by result ≡ shape_refusal w p levels 0 }
{
    if !within(SHORTEST_WINDOW, LONGEST_WINDOW, w) {
        return Err(Refusal::Window);
    }
    if !within(LEAST_FAN_OUT, GREATEST_FAN_OUT, p) {
        return Err(Refusal::FanOut);
    }
    if !within(FEWEST_LEVELS, MOST_LEVELS, levels) {
        return Err(Refusal::Levels);
    }
    Ok(())
}

// Questions 4 to 6, where the least nominal length is known.
#[tactic(auto, unfolding(crate::specs::Questions::ask))]
pub fn size_question(least: u64, nominal: u64, width: u64, size: usize) -> Result<(), Refusal>
    ensures { refused_by result ≡ size_refusal least nominal width size }
{
    if !within(least, GREATEST_LENGTH, nominal) {
        return Err(Refusal::Nominal);
    }
    if !within(LEAST_WIDTH, GREATEST_WIDTH, width) {
        return Err(Refusal::Width);
    }
    if LONGEST_STRING < size {
        return Err(Refusal::StringLength);
    }
    Ok(())
}
