// Whether a sketch opens over the own shingle list, and the new list that an opened sketch leaves.
#![tactic(auto)]

mod list;
mod question;
mod taken;

ghost use Rattle.refusal.specs.Answer.{answer_of};
ghost use Rattle.opening.specs.Deciding.{Decides};
ghost use Rattle.opening.specs.Renewing.{Renewed};
ghost use Rattle.opening.specs.Opened.{Opened};

use refusal::Refusal;
use single::TAKEN_BYTES;
pub use taken::none_twice;

// What a sketch opens to: the shingle tables of what the own list lacks and of what it has to give up.
#[derive(Clone, Copy)]
pub struct Opening {
    pub new: [u8; TAKEN_BYTES],
    pub gone: [u8; TAKEN_BYTES],
}

// Whether the sender's sketch opens over the own list, and what was taken from it. Nothing that is lent changes.
pub fn decide(
    levels: u64,
    width: u64,
    theirs: &[u8],
    own: &[u8],
    shingles: &[u8],
) -> Result<Opening, Refusal>
    ensures { Decides levels width theirs.now own.now shingles.now result }
{
    question::sizes(levels, width, theirs.len(), own.len(), shingles.len())?;
    let mut new = [0; TAKEN_BYTES];
    let mut gone = [0; TAKEN_BYTES];
    let empty = single::peel(levels, width, theirs, own, &mut new, &mut gone);
    if !question::opens(empty, &new, &gone, shingles) {
        return Err(Refusal::Sketch);
    }
    Ok(Opening { new, gone })
}

// Writes the new list into the shingle table: without the shingles that are gone, with the new ones, sorted, zero past its end.
// The answer is the number of shingles. A table without room for them is refused and left as it is.
pub fn renew(opening: &Opening, shingles: &mut [u8]) -> Result<usize, Refusal>
    ensures { Renewed opening.now.new opening.now.gone shingles.old shingles.new (answer_of result) }
{
    list::renew(&opening.new, &opening.gone, shingles)
}

// Opens the sender's sketch over the own list: the shingle table then holds the new list, and the answer is its length. Where
// the sketch is refused, nothing changes.
pub fn open(
    levels: u64,
    width: u64,
    theirs: &[u8],
    own: &[u8],
    shingles: &mut [u8],
) -> Result<usize, Refusal>
    ensures { Opened levels width theirs.now own.now shingles.old shingles.new (answer_of result) }
{
    // By reference: what is taken is 9 KB, and a stack in firmware is short.
    match &decide(levels, width, theirs, own, shingles) {
        Ok(opening) => renew(opening, shingles),
        Err(question) => Err(*question),
    }
}
