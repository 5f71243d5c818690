// What setting up either end has in common: the questions, and a string's node table, shingle table and cell table.
#![tactic(auto)]

ghost use Rattle.std.specs.Prelude.{true, ◌≡◌};
ghost use Rattle.refusal.specs.Answer.{answer_of, refused_by};
ghost use Rattle.setup.specs.Questions.{tables_fit, lent_refusal};
ghost use Rattle.setup.specs.Tables.{SetUp};
ghost use Rattle.setup.specs.Asked.{asked_of};

use refusal::Refusal;
use tree::Settings;

// A string and its three tables, as they are lent to a call that only reads them.
#[derive(Clone, Copy)]
pub struct Lent<'a> {
    pub string: &'a [u8],
    pub nodes: &'a [u8],
    pub shingles: &'a [u8],
    pub cells: &'a [u8],
}

// Questions 1 to 7, of settings, of a string's length and of the lengths of lent tables.
pub fn question(
    settings: Settings,
    size: usize,
    nodes: usize,
    shingles: usize,
    cells: usize,
) -> Result<(), Refusal>
    ensures { refused_by result ≡ lent_refusal settings size (tables_fit settings.width nodes shingles cells) }
{
    tree::question(settings, size)?;
    if !tree::has_room(nodes) {
        return Err(Refusal::Room);
    }
    if shingles < 98304 {
        return Err(Refusal::Room);
    }
    if cells as u64 / 120 < settings.width {
        return Err(Refusal::Room);
    }
    Ok(())
}

impl Lent<'_> {
    // Questions 1 to 7, of settings and of what is lent.
    pub fn question(self, settings: Settings) -> Result<(), Refusal>
        ensures { refused_by result ≡ asked_of settings self.entry }
    {
        question(
            settings,
            self.string.len(),
            self.nodes.len(),
            self.shingles.len(),
            self.cells.len(),
        )
    }
}

// Cuts a string into its tree and fills the node table with it, the shingle table with the tree's shingles and the cell table with
// their cells. Asked are 1 to 8, and the answer is the number of nodes. A no at 1 to 7
// leaves the tables as they are, at 8 they are all zero, and after a yes they are zero past the last entry.
pub fn fill_tables(
    settings: Settings,
    string: &[u8],
    nodes: &mut [u8],
    shingles: &mut [u8],
    cells: &mut [u8],
) -> Result<usize, Refusal>
    ensures { SetUp settings string.now true nodes.old nodes.new shingles.old
        shingles.new cells.old cells.new (answer_of result) }
{
    question(
        settings,
        string.len(),
        nodes.len(),
        shingles.len(),
        cells.len(),
    )?;
    let Ok(count) = tree::cut_string(settings, string, nodes) else {
        rows::clear(shingles, 0);
        rows::clear(cells, 0);
        return Err(Refusal::Nodes);
    };
    shingle::fill_shingles(nodes, shingles)?;
    sketch::fill_cells(settings.width, shingles, cells)?;
    Ok(count)
}
