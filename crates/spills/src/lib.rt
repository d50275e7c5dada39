// Carved levels without a walk (W-205): a cell's level is the greater of its height and of its label's spill (`raised_levels` in
// proofs/Levels.antt). A label's spill is the height at which joining pairs in ascending order first brings it into the group of label 0, the
// outlets'. No stage calls this yet: the labels that the stages make have the number of cells for the outlets (`outlets-first` in
// proofs/OutletsFirst.antt).
// Each join hangs the greater root under the lesser and notes the pair and the lesser root at the greater. Label 0 is always a root, and a
// noted root is always less than the label it is noted at: by ascending label each spill is ready when it is asked for, in the notes' place.
#![tactic(auto)]

ghost use Rattle.std.specs.Prelude.{List, ◌≡◌, max, ℕ, ◌<◌, ◌≤◌, length};
ghost use Rattle.groups.specs.Groups.{Down, Joined};
ghost use Rattle.lists.specs.Greatest.{greatest};
ghost use Rattle.lists.specs.Lists.{at, filled, upto};
ghost use Rattle.pairs.specs.Pairs.{greater_of, lesser_of};
ghost use Rattle.spills.specs.Noting.{no_note, noted, noted_at, Noting, Readable, spill_by, SpillsBy};
ghost use Rattle.spills.specs.Spills.{Raised, Spilling};

use groups::{alone, find_basin, hang_basins};
use kinds::{Basin, Numbered};
use lists::fill;
use pairs::{greater, height, lesser};

// What stands at a label that was never hung.
// Stays: a number and no Option, as the spills take the notes' place in the same list (`no_note`).
const NONE: u32 = 4_294_967_295;

// At the greater of two roots: the pair that joins them, and the lesser root.
fn note(notes: &mut [u32], pair: u16, r: Basin, s: Basin)
    requires { (r.0 < length notes.old) × (s.0 < length notes.old) }
    ensures { notes.new ≡ noted_at pair r.0 s.0 notes.old }
{
    let lo = r.min(s);
    let hi = r.max(s);
    notes[hi.index()] = 65536 * u32::from(pair) + u32::from(lo.0);
}

// The groups of a pair's two labels become one; where they were two, that is noted.
// Stays: the like of it in `passes` asks only whether they were two. This one needs both roots for its note, and one form for the two would
// hand out roots that `passes` drops.
fn join(w: usize, labels: &[u16], p: u16, group: &mut [u16], notes: &mut [u32])
    requires w_nonzero { (0 < w) × (w ≤ 64) × (length labels.now ≤ 4096) × (greater_of w p < length labels.now) × Down group.old }
    requires group_in_bounds { (length group.old ≤ length notes.old) × ((c : ℕ) → c < length labels.now → at labels.now c < length group.old) }
    ensures { Joined group.old (at labels.now (lesser_of p)) (at labels.now (greater_of w p)) group.new
        × (notes.new
        ≡ noted group.old (at labels.now (lesser_of p)) (at labels.now (greater_of w p)) p notes.old) }
{
    let a = lesser(p);
    let b = greater(w, p);
    let r = find_basin(group, Basin(labels[a.index()]));
    let s = find_basin(group, Basin(labels[b.index()]));
    if r == s {
        return;
    }
    hang_basins(group, r, s);
    note(notes, p, r, s);
}

// All pairs in their order. After i of them the groups follow these, and each label that isn't a root has its note.
fn join_along(w: usize, labels: &[u16], list: &[u16], group: &mut [u16], notes: &mut [u32])
    requires by_index { (heights : List ℕ) × Spilling w heights labels.now list.now }
    requires group_value { (group.old ≡ upto 4097) × (4097 ≤ length notes.old) × ((b : ℕ) → b ≤ 4096 → at notes.old b ≡ no_note) }
    ensures { (heights : List ℕ) → Spilling w heights labels.now list.now
        → Noting w heights labels.now list.now group.new notes.new }
{
    for p in list {
        join(w, labels, *p, group, notes);
    }
}

// The same in groups of 4,097 labels of their own: 4,096 cells have at most as many labels, and 0.
fn join_all(w: usize, labels: &[u16], list: &[u16], notes: &mut [u32])
    requires by_index { (heights : List ℕ) × Spilling w heights labels.now list.now }
    requires in_bounds { (4097 ≤ length notes.old) × ((b : ℕ) → b ≤ 4096 → at notes.old b ≡ no_note) }
    ensures { (heights : List ℕ) → Spilling w heights labels.now list.now
        → (g : List ℕ) × Noting w heights labels.now list.now g notes.new }
{
    let mut group = [0u16; 4097];
    alone(&mut group);
    join_along(w, labels, list, &mut group, notes);
}

// No label is hung yet.
fn clear(notes: &mut [u32])
    requires { 4097 ≤ length notes.old }
    ensures { notes.new ≡ filled (λ b. no_note) 4097 notes.old }
{
    fill(notes, 4097, |_| NONE);
}

// The spill that a note says, where the spills of lesser labels stand already.
fn spill_of(w: usize, heights: &[u32], spills: &[u32], note: u32) -> u32
    requires { (0 < w) × (w ≤ 64) × (length heights.now ≤ 4096) × Readable w (length heights.now) (length spills.now) note }
    ensures { result ≡ spill_by w heights.now spills.now note }
{
    if note == NONE {
        return 0;
    }
    let h = height(w, heights, (note / 65536) as u16);
    h.max(spills[(note % 65536) as usize])
}

// From notes to spills, in place, for the labels below `top`. After b turns the entries below b are spills, and from b on notes.
fn spill_all(w: usize, heights: &[u32], top: usize, notes: &mut [u32])
    requires w_nonzero { (0 < w) × (w ≤ 64) × (length heights.now ≤ 4096) × (top ≤ 4097) × (4097 ≤ length notes.old) }
    requires by_index { (b : ℕ) → b ≤ 4096 → Readable w (length heights.now) b (at notes.old b) }
    ensures { SpillsBy w heights.now notes.old top notes.new }
{
    for b in 0..top {
        notes[b] = spill_of(w, heights, notes, notes[b]);
    }
}

// The greatest label. On most tiles there are far fewer labels than cells.
fn most_of(labels: &[u16]) -> u16
    ensures { result ≡ greatest labels.now }
{
    let mut found: u16 = 0;
    for label in labels {
        found = found.max(*label);
    }
    found
}

// Each height becomes the greater of itself and of its label's spill. After c turns the first c heights have.
fn raise(labels: &[u16], spills: &[u32], heights: &mut [u32])
    requires labels_len { (length labels.now ≡ length heights.old) × (length heights.old ≤ 4096) }
    requires by_index { (c : ℕ) → c < length labels.now → at labels.now c < length spills.now }
    ensures { heights.new
        ≡ filled (λ c. max (at heights.old c) (at spills.now (at labels.now c)))
        (length heights.old) heights.old }
{
    for c in 0..heights.len() {
        heights[c] = heights[c].max(spills[usize::from(labels[c])]);
    }
}

// Each height becomes the carved level of its cell: the greater of itself and of its label's spill. The notes are work space.
pub fn spill_levels(w: usize, labels: &[u16], list: &[u16], notes: &mut [u32], heights: &mut [u32])
    requires { Spilling w heights.old labels.now list.now × (4097 ≤ length notes.old) }
    ensures { Raised w heights.old labels.now list.now heights.new }
{
    clear(notes);
    join_all(w, labels, list, notes);
    let top = usize::from(most_of(labels)) + 1;
    spill_all(w, heights, top, notes);
    raise(labels, notes, heights);
}
