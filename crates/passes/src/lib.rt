// Rules 3 and 4: from a tile and its labels to the pairs of its chosen passes. Of pairs that are enough crossings in order, one is a chosen
// pass where it joins two groups of labels. All outlet basins have one label, so they count as joined from the start.
#![tactic(auto)]

ghost use Rattle.std.specs.Prelude.{cond, List, ◌≡◌, ℕ, ◌<◌, ◌≤◌, length};
ghost use Rattle.groups.specs.Groups.{Down, Joined, two_groups};
ghost use Rattle.lists.specs.Lists.{at, upto};
ghost use Rattle.pairs.specs.Pairs.{crossing_of, greater_of, lesser_of};
ghost use Rattle.passes.specs.Choosing.{Choosable, PairsChosen};
ghost use Rattle.passes.specs.Picking.{Pickable, Picked};
ghost use Rattle.rules.specs.Land.{Land};

use grid::Neighbours;
use groups::{alone, unite};
use kinds::{Basin, Numbered};
use pairs::{greater, lesser};
use sorting::sort_pairs;
use squares::list_pairs;

// The groups of a pair's two labels become one. Gives whether they were two.
fn join(w: usize, labels: &[u16], p: u16, group: &mut [u16]) -> bool
    requires w_nonzero { (0 < w) × (w ≤ 64) × (length labels.now ≤ 4096) × Down group.old }
    requires p_in_bounds { (greater_of w p < length labels.now) × ((c : ℕ) → c < length labels.now → at labels.now c < length group.old) }
    ensures { (cond result 1 0 ≡ two_groups group.old (at labels.now (lesser_of p)) (at labels.now (greater_of w p)))
        × Joined group.old (at labels.now (lesser_of p)) (at labels.now (greater_of w p)) group.new }
{
    let a = lesser(p);
    let b = greater(w, p);
    unite(group, Basin(labels[a.index()]), Basin(labels[b.index()]))
}

// Goes through the pairs in their order and joins the labels of each, in groups of 4,097 labels of their own. Each pair is written
// to the next place of the picked ones, and then counted if it joined two groups. After i pairs the m picked ones stand at the front,
// and from i on the list is as it was.
fn pick_along(w: usize, labels: &[u16], group: &mut [u16], list: &mut [u16]) -> usize
    requires w_nonzero { (0 < w) × (w ≤ 64) × ((L : Land) × Pickable (crossing_of w) L labels.now list.old) }
    requires group_value { group.old ≡ upto 4097 }
    ensures { (L : Land) → Pickable (crossing_of w) L labels.now list.old
        → Picked (crossing_of w) L list.old list.new result }
{
    let mut m = 0;
    for i in 0..list.len() {
        let p = list[i];
        let joined = join(w, labels, p, group);
        list[m] = p;
        m += usize::from(joined);
    }
    m
}

// The pairs of the chosen passes, in their order, at the start of the list. Gives their number.
fn pick(w: usize, labels: &[u16], list: &mut [u16]) -> usize
    requires { (0 < w) × (w ≤ 64) × ((L : Land) × Pickable (crossing_of w) L labels.now list.old) }
    ensures { (L : Land) → Pickable (crossing_of w) L labels.now list.old
        → Picked (crossing_of w) L list.old list.new result }
{
    let mut group = [0u16; 4097];
    alone(&mut group);
    pick_along(w, labels, &mut group, list)
}

// The pairs of the chosen passes of a tile, in the order of rule 3, at the start of the list. Gives their number. The spare list is work space.
pub fn choose_pairs(
    neighbours: Neighbours,
    w: usize,
    heights: &[u32],
    labels: &[u16],
    list: &mut [u16],
    spare: &mut [u32],
) -> usize
    requires by_index { (marks : List ℕ) × Choosable neighbours w heights.now marks labels.now list.old }
    requires list_in_bounds { length list.old ≤ length spare.old }
    ensures { PairsChosen neighbours w heights.now labels.now list.old result list.new }
{
    let count = list_pairs(neighbours, w, heights, labels, list);
    sort_pairs(w, heights, &mut list[..count], spare);
    pick(w, labels, &mut list[..count])
}
