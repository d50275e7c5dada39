// A lake with all the lakes inside it, by recursion over its split.
ghost use Rattle.std.specs.Prelude.{List, map, ℕ, ◌*◌, ◌<◌, ◌≤◌, length};
ghost use Rattle.lake_list.specs.Listing.{NotedLake, NotedLakes, Listed, Room};
ghost use Rattle.lake_rules.specs.Lakes.{depth, lakes_of};
ghost use Rattle.lists.specs.Greatest.{greatest};
ghost use Rattle.lists.specs.Lists.{at, flat};

use crate::Row;
use crate::measuring::{row_of, split_height};
use lake_groups::gather;

// A lake, after all the lakes inside it. Gives how many lakes are listed then, or None where it is deeper than `left`. A lake that
// never splits has no group of cells below its split, 0.
#[cycle(list_groups_list_lake)]
pub fn list_lake(
    heights: &[u32],
    flags: &[u8],
    parents: &[u16],
    joins: &[u32],
    cells: &mut [u16],
    spare: &mut [u16],
    ends: &mut [u16],
    index: &mut [u16],
    level: u32,
    left: usize,
    from: usize,
    rows: &mut [Row],
) -> Option<usize>
    requires noted_lake { NotedLake heights.now flags.now parents.now joins.now level cells.old }
    requires room { Room heights.now cells.old spare.old index.old rows.old «from» × (2 * length cells.old ≤ length ends.old) }
    ensures { (K : NotedLake heights.now flags.now parents.now joins.now level cells.old)
        → Listed left (depth K.land level cells.old) «from» (length cells.old)
        (lakes_of K.land level cells.old) rows.old rows.new result }
{
    if left == 0 {
        return None;
    }
    let row = row_of(heights, cells, level);
    let h = split_height(heights, flags, cells);
    let count = gather(heights, parents, joins, h, cells, index, ends, spare);
    let next = list_groups(
        heights,
        flags,
        parents,
        joins,
        spare,
        cells,
        ends,
        index,
        count,
        h,
        left - 1,
        from,
        rows,
    )?;
    rows[next] = row;
    Some(next + 1)
}

// The lakes of one level that stand one after the other in `cells`, each after all the lakes inside it: entry x of `ends` says where
// lake x begins, and the next where it ends. Gives how many lakes are listed then, or None where one is deeper than `left`.
#[cycle(list_groups_list_lake)]
fn list_groups(
    heights: &[u32],
    flags: &[u8],
    parents: &[u16],
    joins: &[u32],
    cells: &mut [u16],
    spare: &mut [u16],
    ends: &mut [u16],
    index: &mut [u16],
    count: usize,
    level: u32,
    left: usize,
    from: usize,
    rows: &mut [Row],
) -> Option<usize>
    requires noted_lakes { NotedLakes heights.now flags.now parents.now joins.now (λ (g : List ℕ). level) cells.old ends.old count }
    requires room { Room heights.now cells.old spare.old index.old rows.old «from»
        × (0 < at ends.old 0) × (count ≤ length cells.old) }
    ensures { (K : NotedLakes heights.now flags.now parents.now joins.now (λ (g : List ℕ). level)
        cells.old ends.old count)
        → Listed left (greatest (map (depth K.land level) K.gs)) «from» (length (flat (λ (g : List ℕ). g) K.gs))
        (flat (lakes_of K.land level) K.gs) rows.old rows.new result }
{
    // Between turns the lakes before lake x are listed, none of them was too deep, and the others stand as they did, with their ends.
    let rest = count + 1;
    let mut next = from;
    for x in 0..count {
        let a = ends[x] as usize;
        let b = ends[x + 1] as usize;
        next = list_lake(
            heights,
            flags,
            parents,
            joins,
            &mut cells[a..b],
            &mut spare[a..b],
            &mut ends[rest..],
            index,
            level,
            left,
            next,
            rows,
        )?;
    }
    Some(next)
}
