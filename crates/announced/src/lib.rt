// What an opening announces, judged by the own settings, the output lent and the own tables: questions 12, 13 and 14.
#![tactic(auto)]

mod cells;
mod question;

ghost use Rattle.announced.specs.Judging.{Judges};

use opening::Opening;
use refusal::Refusal;
use tree::Settings;

// What an opening's announcement comes to: what its sketch opens to, or which question refuses. Beside the settings, the length and the
// sketch those of levels, width and room are asked again, of what the receiver has asked for before. Nothing that is lent changes.
pub fn judge(
    settings: Settings,
    rule: u64,
    announced: Settings,
    length: u64,
    room: usize,
    message: &[u8],
    cells: &[u8],
    shingles: &[u8],
) -> Result<Opening, Refusal>
    ensures { Judges settings rule announced length room message.now cells.now shingles.now result }
{
    let equal = question::same(settings, rule, announced);
    let fits = question::fits(length, room);
    question::first_no(equal, fits)?;
    let theirs = cells::cells_of(message, announced.width);
    opening::decide(settings.levels, settings.width, &theirs, cells, shingles)
}
