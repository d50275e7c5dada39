// Lakes listed, by recursion over their splits (document 02, W-202).
// The cells of a lake are a part of a list, ascending. A call gathers them into the same part of a second list, group by group of the
// cells below the lake's split, and calls itself with the part of each group, the two lists in each other's role: so the number of
// cells falls. Every lake is listed after the lakes inside it, a row for each.
#![tactic(auto)]

ghost use Rattle.std.specs.Prelude.{List, ◌≡◌, ℕ, ◌*◌, ◌+◌, ◌≤◌, length};
ghost use Rattle.lake_list.specs.Listing.{NotedLakes, Room};
ghost use Rattle.lake_list.specs.Outermost.{FoundAmong, NotedWet};
ghost use Rattle.lake_list.specs.Rows.{FoundIn};
ghost use Rattle.lake_notes.specs.Noting.{Levelled};
ghost use Rattle.lake_rules.specs.Lakes.{level_of};
ghost use Rattle.lake_rules.specs.LocalLevels.{Local};
ghost use Rattle.rules.specs.Land.{rule4};
ghost use Rattle.rules.specs.Tile.{tile_land};

mod measuring; // measuring.rt: what is measured of a lake, and its row
mod nesting; // nesting.rt: a lake with all the lakes inside it

use kinds::Cell;
use lake_groups::gather;
use lake_notes::note_lakes;
use nesting::list_lake;
use std::error::Error;
use std::fmt;

// What is listed of a lake; the level is lifted.
#[derive(Clone, Copy, Debug, PartialEq, Eq)]
pub struct Row {
    pub level: u32,
    // The number of its cells.
    pub count: u16,
    pub least: Cell,
    // The sum of level minus height over its cells.
    pub volume: u64,
}

// What stands in a list of rows before lakes are listed.
pub const NO_ROW: Row = Row {
    level: 0,
    count: 0,
    least: Cell(0),
    volume: 0,
};

// No lakes are listed: the least cell of the first outermost lake that is deeper than 64.
#[derive(Clone, Copy, Debug, PartialEq, Eq)]
pub struct TooDeep(pub Cell);

impl fmt::Display for TooDeep {
    fn fmt<W: fmt::Write>(&self, f: &mut fmt::Formatter<W>) -> fmt::Result {
        let cell = (self.0).0;
        write!(f, "the lake of cell {cell} is deeper than 64")
    }
}

impl Error for TooDeep {}

// No deeper lake is listed.
const DEEPEST: usize = 64;

// The outermost lakes that stand one after the other in `cells`, as `list_groups` has them, each at the level of its first cell.
// Stays: a loop beside that of `list_groups`. Each lake has a level of its own here, and the one that is too deep is named, so one function
// for both would take two closures through the cycle of calls, and is no plainer.
fn list_outermost(
    heights: &[u32],
    levels: &[u32],
    flags: &[u8],
    parents: &[u16],
    joins: &[u32],
    cells: &mut [u16],
    spare: &mut [u16],
    ends: &mut [u16],
    index: &mut [u16],
    count: usize,
    rows: &mut [Row],
) -> Result<u16, TooDeep>
    requires noted_lakes { NotedLakes heights.now flags.now parents.now joins.now (level_of levels.now) cells.old ends.old count }
    requires room { Room heights.now cells.old spare.old index.old rows.old 0 × (count ≤ length cells.old)
        × (length levels.now ≡ length heights.now) }
    ensures { (K : NotedLakes heights.now flags.now parents.now joins.now (level_of levels.now)
        cells.old ends.old count)
        → FoundAmong K.land levels.now K.gs result rows.new }
{
    // Between turns as in `list_groups`.
    let rest = count + 1;
    let mut next = 0;
    for x in 0..count {
        let a = ends[x] as usize;
        let b = ends[x + 1] as usize;
        let first = cells[a];
        let listed = list_lake(
            heights,
            flags,
            parents,
            joins,
            &mut cells[a..b],
            &mut spare[a..b],
            &mut ends[rest..],
            index,
            levels[first as usize],
            DEEPEST,
            next,
            rows,
        );
        next = listed.ok_or(TooDeep(Cell(first)))?;
    }
    Ok(next as u16)
}

// All lakes of a land whose wet cells these are. No wet cell is as high as 16,000,000: the groups below it are the outermost lakes.
fn list_wet(
    heights: &[u32],
    levels: &[u32],
    flags: &[u8],
    parents: &[u16],
    joins: &[u32],
    cells: &mut [u16],
    spare: &mut [u16],
    ends: &mut [u16],
    index: &mut [u16],
    rows: &mut [Row],
) -> Result<u16, TooDeep>
    requires noted_wet { NotedWet heights.now levels.now flags.now parents.now joins.now cells.old }
    requires room { Room heights.now cells.old spare.old index.old rows.old 0 × (2 * length cells.old + 2 ≤ length ends.old) }
    ensures { (K : NotedWet heights.now levels.now flags.now parents.now joins.now
        cells.old)
        → FoundIn K.land levels.now result rows.new }
{
    let count = gather(
        heights, parents, joins, 16_000_000, cells, index, ends, spare,
    );
    list_outermost(
        heights, levels, flags, parents, joins, spare, cells, ends, index, count, rows,
    )
}

// All lakes of a tile, by its lifted heights and levels, a row for each at the start of `rows`. What stands there where a lake is
// too deep is not told. Work space: 68 KB, and that of noting.
pub fn list_lakes(
    w: usize,
    heights: &[u32],
    levels: &[u32],
    rows: &mut [Row],
) -> Result<u16, TooDeep>
    requires levelled { Levelled w heights.now levels.now }
    requires heights_in_bounds { (length heights.now ≤ length rows.old) × ((marks : List ℕ) × Local (tile_land rule4 w heights.now marks) levels.now) }
    ensures { (marks : List ℕ) → Local (tile_land rule4 w heights.now marks) levels.now
        → FoundIn (tile_land rule4 w heights.now marks) levels.now result rows.new }
{
    let mut cells = [0u16; 4096];
    let mut flags = [0u8; 4096];
    let mut parents = [0u16; 4096];
    let mut joins = [0u32; 4096];
    let mut spare = [0u16; 4096];
    let mut ends = [0u16; 8194];
    let mut index = [0u16; 4096];
    let count = note_lakes(
        w,
        heights,
        levels,
        &mut cells,
        &mut flags,
        &mut parents,
        &mut joins,
    );
    list_wet(
        heights,
        levels,
        &flags,
        &parents,
        &joins,
        &mut cells[..count],
        &mut spare[..count],
        &mut ends,
        &mut index,
        rows,
    )
}
