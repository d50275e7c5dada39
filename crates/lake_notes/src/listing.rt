// The wet cells of a tile, and all pairs of neighbouring ones: listed by number, then sorted by height.
ghost use Rattle.std.specs.Prelude.{cond, ◌≡◌, ◌%◌, ◌*◌, ◌+◌, ◌-◌, ◌<◌, ◌≤◌, eqb, length, take};
ghost use Rattle.lake_notes.specs.Noting.{Levelled};
ghost use Rattle.lake_notes.specs.WetPairs.{both_wet, wet_below, WetClimbing, wet_pairs, wet_side};
ghost use Rattle.lists.specs.Lists.{overwrite};
ghost use Rattle.lists.specs.Stores.{Packs};

use sorting::sort_pairs;

// The wet cells at the start of a list, ascending: the rest stays as it was. Gives their number.
// After c cells the k wet ones among them stand at the start.
pub fn wet_cells(heights: &[u32], levels: &[u32], cells: &mut [u16]) -> usize
    requires { (length heights.now ≤ 4096) × (length levels.now ≡ length heights.now) × (length heights.now ≤ length cells.old) }
    ensures { (result ≡ length (wet_below heights.now levels.now (length heights.now)))
        × (cells.new
        ≡ overwrite (wet_below heights.now levels.now (length heights.now)) cells.old) }
{
    let mut k = 0;
    for c in 0..heights.len() {
        if heights[c] < levels[c] {
            cells[k] = c as u16;
            k += 1;
        }
    }
    k
}

// Whether both cells are wet.
fn both_wet(heights: &[u32], levels: &[u32], a: usize, b: usize) -> bool
    requires { (a < length heights.now) × (b < length heights.now) × (length levels.now ≡ length heights.now) }
    ensures { result ≡ both_wet heights.now levels.now a b }
{
    heights[a] < levels[a] && heights[b] < levels[b]
}

// The same of cell c and the one to its right, where `left` cells of its row are left, c among them.
fn right_wet(w: usize, heights: &[u32], levels: &[u32], c: usize, left: usize) -> bool
    requires { Levelled w heights.now levels.now × (c < length heights.now) × (c % w + left ≡ w) }
    ensures { result ≡ wet_side w heights.now levels.now 0 c }
{
    2 <= left && both_wet(heights, levels, c, c + 1)
}

// The same of cell c and the one below.
fn below_wet(w: usize, heights: &[u32], levels: &[u32], c: usize) -> bool
    requires { Levelled w heights.now levels.now × (c < length heights.now) }
    ensures { result ≡ wet_side w heights.now levels.now 2 c }
{
    c + w < heights.len() && both_wet(heights, levels, c, c + w)
}

// How many cells of a row are left one cell on.
fn next_left(w: usize, left: usize) -> usize
    requires { 0 < left }
    ensures { result ≡ cond (eqb left 1) w (left - 1) }
{
    if left == 1 { w } else { left - 1 }
}

// All pairs of neighbouring wet cells at the start of a list, ascending: each is written, and then counted or not. Gives their number.
// After c cells their k pairs stand at the start, and `left` cells are left of the row.
fn wet_pairs(w: usize, heights: &[u32], levels: &[u32], list: &mut [u16]) -> usize
    requires { Levelled w heights.now levels.now × (2 * length heights.now ≤ length list.old) }
    ensures { Packs (wet_pairs w heights.now levels.now (length heights.now)) list.new result
        × (result ≤ 2 * length heights.now) }
{
    let mut k = 0;
    let mut left = w;
    for c in 0..heights.len() {
        let right = right_wet(w, heights, levels, c, left);
        let below = below_wet(w, heights, levels, c);
        list[k] = (4 * c) as u16;
        k += usize::from(right);
        list[k] = (4 * c + 2) as u16;
        k += usize::from(below);
        left = next_left(w, left);
    }
    k
}

// The same pairs in the order in which they are taken: none is lower than one before it.
pub fn climbing_pairs(w: usize, heights: &[u32], levels: &[u32], list: &mut [u16]) -> usize
    requires { Levelled w heights.now levels.now × (2 * length heights.now ≤ length list.old) }
    ensures { (result ≤ length list.new) × WetClimbing w heights.now levels.now (take result list.new) }
{
    let count = wet_pairs(w, heights, levels, list);
    let mut spare = [0u32; 8192];
    sort_pairs(w, heights, &mut list[..count], &mut spare);
    count
}
