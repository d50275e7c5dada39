// Sheet flow (W-205): the links of its receivers, from levels. A cell with a lower neighbour leads to the lowest; any other takes a level step to
// the first neighbour of its level whose count is one less. Flat passes over lists with a margin, and one spreading of counts.
#![tactic(auto)]

ghost use Rattle.std.specs.Prelude.{◌≡◌, ℕ, ◌+◌, ◌<◌, ◌≤◌, not, ◌&&◌, ◌||◌, List, length, if◌then◌else◌, ◌==◌, nat_eq};
ghost use Rattle.first_receivers.specs.Weights.{first_is};
ghost use Rattle.grid.specs.Masks.{leads, mask_of};
ghost use Rattle.grid.specs.Neighbours.{places_by};
ghost use Rattle.grid.specs.Window.{around, beside};
ghost use Rattle.lists.specs.Lists.{at, filled, stored, tab};
ghost use Rattle.rules.specs.Tile.{Tile};
ghost use Rattle.sheet.specs.LevelSteps.{first_count, lead_weight, step_weight};
ghost use Rattle.sheet.specs.SheetLinks.{Carved, level_tile, LevelsStepped, Lowered, sheet_lead, SheetLinked};
ghost use Rattle.spread.specs.Steps.{alike, none};

use alike::{like_masks, neighbour_masks};
use grid::Neighbours;
use links::link_leads;
use lowest::lowest_weights;
use rules::is_outlet;
use spread::spread;
use std::num::wrapping_sub_u16;

// So many entries stand before and after those of the cells, so that every cell has eight places around it.
const MARGIN: usize = 65;

// The count of a cell that no way was found from.
// Stays: a number and no Option, since `spread` asks for it (`none`).
const NONE: u16 = 65_535;

// The first count of a cell with this mark and this weight.
fn first_count(mark: u8, weight: u8) -> u16
    ensures { result ≡ (if nat_eq mark 1 || not (weight == 0) then 0 else none) }
{
    if is_outlet(mark) {
        0
    } else if weight == 0 {
        NONE
    } else {
        0
    }
}

// The first counts of all cells.
fn first_counts(weights: &[u8], marks: &[u8], counts: &mut [u16])
    requires { (length marks.now ≤ 4096) × (length marks.now ≤ length weights.now) × (length marks.now + 130 ≤ length counts.old) }
    ensures { counts.new
        ≡ stored 65 (tab (length marks.now) (first_count weights.now marks.now)) counts.old }
{
    lists::fill(
        &mut counts[MARGIN..],
        marks.len(),
        |c| first_count(marks[c], weights[c]),
    );
}

// The levels with a margin.
fn copy_levels(levels: &[u32], labels: &mut [u32])
    requires { (length levels.now ≤ 4096) × (length levels.now + 130 ≤ length labels.old) }
    ensures { labels.new ≡ stored 65 levels.now labels.old }
{
    labels[MARGIN..MARGIN + levels.len()].copy_from_slice(levels);
}

// The weights of the lowest neighbours, and the masks of the neighbours of a cell's own level. Work space: 21 KB.
fn find_lowest(
    neighbours: Neighbours,
    w: usize,
    levels: &[u32],
    marks: &[u8],
    weights: &mut [u8],
    likes: &mut [u8],
)
    requires { Tile w levels.now marks.now × (length levels.now ≤ length weights.old) × (length levels.now ≤ length likes.old) }
    ensures { let n = length levels.now in
        (weights.new
        ≡ filled (mask_of around w n (first_is (level_tile neighbours w levels.now marks.now))) n weights.old)
        × (likes.new
        ≡ filled (mask_of around w n (alike (beside (places_by neighbours) w) (at levels.now))) n likes.old) }
{
    let mut masks = [0u8; 4096];
    let mut labels = [0u32; 4226];
    let n = levels.len();
    neighbour_masks(neighbours, w, n, &mut masks);
    copy_levels(levels, &mut labels);
    lowest_weights(neighbours, w, &masks[..n], &labels, marks, weights);
    like_masks(neighbours, w, &masks[..n], &labels, likes);
}

// This bit where the mask has its place and the count there is the one asked for, otherwise what a later place gave.
fn first_of(has: u8, count: u16, asked: u16, bit: u8, later: u8) -> u8
    ensures { result ≡ (if nat_eq has 1 && count == asked then bit else later) }
{
    if has == 1 {
        if count == asked { bit } else { later }
    } else {
        later
    }
}

// The weight of a level step from cell c with this mask. Places are tried from the last to the first, so that the first one wins with no branch.
fn step_weight(neighbours: Neighbours, w: usize, counts: &[u16], c: usize, mask: u8) -> u8
    requires { (0 < w) × (w ≤ 64) × (c < 4096) × (c + 66 + w < length counts.now) }
    ensures { result ≡ step_weight neighbours w counts.now c mask }
{
    let here = c + MARGIN;
    let up = here - w;
    let down = here + w;
    let less = wrapping_sub_u16(counts[here], 1);
    match neighbours {
        Neighbours::Four => {
            let below = first_of(mask / 64 % 2, counts[down], less, 64, 0);
            let right = first_of(mask / 16 % 2, counts[here + 1], less, 16, below);
            let left = first_of(mask / 8 % 2, counts[here - 1], less, 8, right);
            first_of(mask / 2 % 2, counts[up], less, 2, left)
        }
        Neighbours::Eight => {
            let below_right = first_of(mask / 128 % 2, counts[down + 1], less, 128, 0);
            let below = first_of(mask / 64 % 2, counts[down], less, 64, below_right);
            let below_left = first_of(mask / 32 % 2, counts[down - 1], less, 32, below);
            let right = first_of(mask / 16 % 2, counts[here + 1], less, 16, below_left);
            let left = first_of(mask / 8 % 2, counts[here - 1], less, 8, right);
            let above_right = first_of(mask / 4 % 2, counts[up + 1], less, 4, left);
            let above = first_of(mask / 2 % 2, counts[up], less, 2, above_right);
            first_of(mask % 2, counts[up - 1], less, 1, above)
        }
    }
}

// The step where the count isn't 0, otherwise the weight that is there.
fn lead_weight(count: u16, weight: u8, step: u8) -> u8
    ensures { result ≡ (if nat_eq count 0 then weight else step) }
{
    if count == 0 { weight } else { step }
}

// Level steps in the weights of all cells whose count isn't 0.
fn step_weights(neighbours: Neighbours, w: usize, likes: &[u8], counts: &[u16], weights: &mut [u8])
    requires w_nonzero { (0 < w) × (w ≤ 64) × (length likes.now ≤ 4096) }
    requires likes_in_bounds { (length likes.now ≤ length weights.old) × (length likes.now + 130 ≤ length counts.now) }
    ensures { weights.new
        ≡ filled (lead_weight neighbours w likes.now counts.now weights.old) (length likes.now)
        weights.old }
{
    for c in 0..likes.len() {
        let step = step_weight(neighbours, w, counts, c, likes[c]);
        weights[c] = lead_weight(counts[c + MARGIN], weights[c], step);
    }
}

// The weights of sheet flow, from those of the lowest neighbours: counts spread from where they end, and where a count isn't 0 a level step takes the
// weight's place. Work space: 17 KB.
fn step_levels(neighbours: Neighbours, w: usize, likes: &[u8], marks: &[u8], weights: &mut [u8])
    requires { (levels : List ℕ) × Lowered neighbours w levels marks.now weights.old likes.now }
    ensures { LevelsStepped neighbours w marks.now likes.now weights.old weights.new }
{
    let mut counts = [0u16; 4226];
    let mut queue = [0u16; 4097];
    first_counts(weights, marks, &mut counts);
    spread(neighbours, w, likes, &mut counts, &mut queue);
    step_weights(neighbours, w, likes, &counts, weights);
}

// The weights that lead where sheet flow does. The list of like neighbours is work space; besides it: that of the parts.
fn sheet_weights(
    neighbours: Neighbours,
    w: usize,
    levels: &[u32],
    marks: &[u8],
    weights: &mut [u8],
    likes: &mut [u8],
)
    requires { Tile w levels.now marks.now × (length levels.now ≤ length weights.old) × (length levels.now ≤ length likes.old) }
    ensures { let n = length levels.now in
        weights.new
        ≡ filled (mask_of around w n (leads (sheet_lead neighbours w levels.now marks.now))) n weights.old }
{
    let n = levels.len();
    find_lowest(neighbours, w, levels, marks, weights, likes);
    step_levels(neighbours, w, &likes[..n], marks, weights);
}

// The links of sheet flow over carving's levels, with a margin of 65 entries on both sides of them. The weights are work space, and
// so are the links before they are written; besides them: that of the parts.
fn link_weighed(
    neighbours: Neighbours,
    w: usize,
    levels: &[u32],
    marks: &[u8],
    weights: &mut [u8],
    links: &mut [u8],
)
    requires by_index { ((heights : List ℕ) × Carved neighbours w heights levels.now marks.now) × (length links.old ≡ 4226) }
    requires levels_in_bounds { length levels.now ≤ length weights.old }
    ensures { SheetLinked neighbours w levels.now marks.now links.new }
{
    let n = levels.len();
    sheet_weights(neighbours, w, levels, marks, weights, &mut links[65..4161]);
    link_leads(neighbours, w, weights, n, &mut links[65..4161]);
}

// The links of sheet flow over carving's levels, with a margin of 65 entries on both sides of them. It is called and not inlined: so its lists
// have a frame of their own, and who links cells and walks doesn't carry them. Work space: 4 KB, and that of the parts.
#[inline(never)]
pub fn link_sheet(neighbours: Neighbours, w: usize, levels: &[u32], marks: &[u8], links: &mut [u8])
    requires { ((heights : List ℕ) × Carved neighbours w heights levels.now marks.now) × (length links.old ≡ 4226) }
    ensures { SheetLinked neighbours w levels.now marks.now links.new }
{
    let mut weights = [0u8; 4096];
    link_weighed(neighbours, w, levels, marks, &mut weights, links);
}
