// Notes for the lakes (W-202): one pass over all pairs of neighbouring wet cells, by ascending height of the higher of the two. It leaves
// flags, from which every lake's split is read, and a forest, from which the groups below any height are read.
#![tactic(auto)]

ghost use Rattle.std.specs.Prelude.{List, ℕ, ◌≤◌, length};
ghost use Rattle.lake_notes.specs.Noting.{Levelled, Noted};
ghost use Rattle.rules.specs.Land.{rule4};
ghost use Rattle.rules.specs.Tile.{tile_land};

mod listing; // listing.rt: the wet cells, and the pairs of neighbouring ones
mod meeting; // meeting.rt: the pass over these pairs

use listing::{climbing_pairs, wet_cells};
use meeting::join_all;

// The wet cells of a tile at the start of a list, ascending, and their notes in three others. Gives their number.
pub fn note_lakes(
    w: usize,
    heights: &[u32],
    levels: &[u32],
    cells: &mut [u16],
    flags: &mut [u8],
    parents: &mut [u16],
    joins: &mut [u32],
) -> usize
    requires levelled { Levelled w heights.now levels.now }
    requires heights_in_bounds { (length heights.now ≤ length cells.old) × (length heights.now ≤ length flags.old)
        × (length heights.now ≤ length parents.old) × (length heights.now ≤ length joins.old) }
    ensures { (marks : List ℕ)
        → Noted (tile_land rule4 w heights.now marks) heights.now levels.now cells.old
        cells.new flags.new parents.new joins.new result }
{
    let count = wet_cells(heights, levels, cells);
    let mut list = [0u16; 8192];
    let pairs = climbing_pairs(w, heights, levels, &mut list);
    join_all(w, heights, &list[..pairs], flags, parents, joins);
    count
}
