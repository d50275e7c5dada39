// The pass over the pairs of neighbouring wet cells, by ascending height. A pair whose cells are in two groups hangs the greater root under
// the lesser, at the pair's height; where each group has a cell lower than the pair, its higher cell is flagged.
ghost use Rattle.std.specs.Prelude.{List, ◌≡◌, max, min, ℕ, ◌<◌, ◌≤◌, length, set};
ghost use Rattle.groups.specs.Groups.{Down, Joined, Root};
ghost use Rattle.lake_notes.specs.Meeting.{Ended, flags_met, higher, lists_of, Met, pair_top, Sized, SoFar};
ghost use Rattle.lake_notes.specs.WetPairs.{Climbing, met_touches};
ghost use Rattle.lake_rules.specs.Notes.{highest};
ghost use Rattle.lists.specs.Lists.{at, filled};
ghost use Rattle.pairs.specs.Pairs.{greater_of, lesser_of};
ghost use Rattle.rules.specs.Land.{rule4};
ghost use Rattle.rules.specs.Tile.{tile_land};

use groups::{alone, find_cell, hang_cells};
use kinds::{Cell, Numbered};
use lists::fill;
use pairs::{greater, height, lesser};

// The higher of two cells, the first where they are of one height.
fn higher_of(heights: &[u32], a: Cell, b: Cell) -> Cell
    requires { (a.0 < length heights.now) × (b.0 < length heights.now) }
    ensures { (result.0 ≡ higher (at heights.now) a.0 b.0) × (result.0 < length heights.now) }
{
    if heights[a.index()] < heights[b.index()] {
        b
    } else {
        a
    }
}

// A pair of height h joins the groups with the roots r and s: its higher cell is flagged where each has a lower cell.
fn flag_meeting(
    heights: &[u32],
    lows: &[u32],
    a: Cell,
    b: Cell,
    r: Cell,
    s: Cell,
    h: u32,
    flags: &mut [u8],
)
    requires a_in_bounds { (a.0 < length heights.now) × (b.0 < length heights.now) × (length heights.now ≤ length flags.old) }
    requires r_in_bounds { (r.0 < length lows.now) × (s.0 < length lows.now) × (h ≡ pair_top (at heights.now) a.0 b.0) }
    ensures { flags.new
        ≡ flags_met (at heights.now) a.0 b.0 lows.now r.0 s.0 flags.old }
{
    if h <= lows[r.index()] {
        return;
    }
    if h <= lows[s.index()] {
        return;
    }
    let c = higher_of(heights, a, b);
    flags[c.index()] = 1;
}

// The greater of two roots is hung under the lesser, at height h. The group that they make is as low as the lower of the two.
fn hang_roots(
    r: Cell,
    s: Cell,
    h: u32,
    group: &mut [u16],
    lows: &mut [u32],
    parents: &mut [u16],
    joins: &mut [u32],
)
    requires down { Down group.old × Root group.old r.0 × Root group.old s.0 × (length group.old ≤ length lows.old) }
    requires group_in_bounds { (length group.old ≤ length parents.old) × (length group.old ≤ length joins.old) }
    ensures { Joined group.old r.0 s.0 group.new
        × (lows.new ≡ set lows.old (min r.0 s.0) (min (at lows.old r.0) (at lows.old s.0)))
        × (parents.new ≡ set parents.old (max r.0 s.0) (min r.0 s.0))
        × (joins.new ≡ set joins.old (max r.0 s.0) h) }
{
    let lo = r.min(s);
    let hi = r.max(s);
    hang_cells(group, r, s);
    let low = lows[r.index()].min(lows[s.index()]);
    lows[lo.index()] = low;
    parents[hi.index()] = lo.0;
    joins[hi.index()] = h;
}

// One pair more.
fn join_pair(
    w: usize,
    heights: &[u32],
    p: u16,
    group: &mut [u16],
    lows: &mut [u32],
    flags: &mut [u8],
    parents: &mut [u16],
    joins: &mut [u32],
)
    requires w_nonzero { (0 < w) × (w ≤ 64) × (length heights.now ≤ 4096) × (greater_of w p < length heights.now) × Down group.old }
    requires sized { Sized (length heights.now) (lists_of group.old lows.old flags.old parents.old joins.old) }
    ensures { Met (at heights.now) (lesser_of p) (greater_of w p)
        (lists_of group.old lows.old flags.old parents.old joins.old)
        (lists_of group.new lows.new flags.new parents.new joins.new) }
{
    let a = lesser(p);
    let b = greater(w, p);
    let r = find_cell(group, a);
    let s = find_cell(group, b);
    if r == s {
        return;
    }
    let h = height(w, heights, p);
    flag_meeting(heights, lows, a, b, r, s, h, flags);
    hang_roots(r, s, h, group, lows, parents, joins);
}

// All pairs, one after the other. After i of them the lists say what the pass over these says.
fn join_pairs(
    w: usize,
    heights: &[u32],
    list: &[u16],
    group: &mut [u16],
    lows: &mut [u32],
    flags: &mut [u8],
    parents: &mut [u16],
    joins: &mut [u32],
)
    requires climbing { Climbing w heights.now list.now }
    requires sized { Sized (length heights.now) (lists_of group.old lows.old flags.old parents.old joins.old) }
    requires by_index { (marks : List ℕ) → SoFar (tile_land rule4 w heights.now marks) (met_touches w list.now 0)
        (lists_of group.old lows.old flags.old parents.old joins.old) }
    ensures { (marks : List ℕ)
        → SoFar (tile_land rule4 w heights.now marks) (met_touches w list.now (length list.now))
        (lists_of group.new lows.new flags.new parents.new joins.new) }
{
    for p in list {
        join_pair(w, heights, *p, group, lows, flags, parents, joins);
    }
}

// No pair yet: no cell is hung or flagged, and each is the lowest of its own group.
fn begin(
    heights: &[u32],
    lows: &mut [u32],
    flags: &mut [u8],
    parents: &mut [u16],
    joins: &mut [u32],
)
    requires heights_len_bound { (length heights.now ≤ 4096) × (length heights.now ≤ length lows.old) × (length heights.now ≤ length flags.old) }
    requires heights_in_bounds { (length heights.now ≤ length parents.old) × (length heights.now ≤ length joins.old) }
    ensures { (lows.new ≡ filled (at heights.now) (length heights.now) lows.old)
        × (flags.new ≡ filled (λ c. 0) (length heights.now) flags.old)
        × (parents.new ≡ filled (λ c. c) (length heights.now) parents.old)
        × (joins.new ≡ filled (λ c. highest) (length heights.now) joins.old) }
{
    let n = heights.len();
    fill(lows, n, |c| heights[c]);
    fill(flags, n, |_| 0);
    fill(parents, n, |c| c as u16);
    fill(joins, n, |_| 16_000_000);
}

// The whole pass, with a list of groups and of lows that are lent.
fn join_in(
    w: usize,
    heights: &[u32],
    list: &[u16],
    group: &mut [u16],
    lows: &mut [u32],
    flags: &mut [u8],
    parents: &mut [u16],
    joins: &mut [u32],
)
    requires climbing { Climbing w heights.now list.now }
    requires sized { Sized (length heights.now) (lists_of group.old lows.old flags.old parents.old joins.old) }
    ensures { Ended w heights.now list.now flags.new parents.new joins.new }
{
    alone(group);
    begin(heights, lows, flags, parents, joins);
    join_pairs(w, heights, list, group, lows, flags, parents, joins);
}

// The whole pass.
pub fn join_all(
    w: usize,
    heights: &[u32],
    list: &[u16],
    flags: &mut [u8],
    parents: &mut [u16],
    joins: &mut [u32],
)
    requires climbing { Climbing w heights.now list.now × (length heights.now ≤ length flags.old) }
    requires heights_in_bounds { (length heights.now ≤ length parents.old) × (length heights.now ≤ length joins.old) }
    ensures { Ended w heights.now list.now flags.new parents.new joins.new }
{
    let mut group = [0u16; 4096];
    let mut lows = [0u32; 4096];
    join_in(
        w,
        heights,
        list,
        &mut group[..heights.len()],
        &mut lows,
        flags,
        parents,
        joins,
    );
}
