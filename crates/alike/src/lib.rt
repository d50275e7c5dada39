// Masks of neighbours: which places of each cell's window have one, and of these the ones with the cell's own label. No step branches on a
// label, so that the compiler can take many cells at once.
#![tactic(auto)]

ghost use Rattle.std.specs.Prelude.{cond, ◌≡◌, ◌%◌, ◌*◌, ◌+◌, ◌-◌, ◌/◌, ◌<◌, ◌≤◌, length};
ghost use Rattle.alike.specs.Columns.{column_by, in_column};
ghost use Rattle.alike.specs.Narrowed.{beyond, InMargin, like_at, narrowed, narrowed_by};
ghost use Rattle.alike.specs.NeighbourMasks.{like_mask, neighbour_mask};
ghost use Rattle.grid.specs.Masks.{Masks};
ghost use Rattle.grid.specs.Neighbours.{places_by};
ghost use Rattle.grid.specs.Window.{around, beside, corners, Grid, sides};
ghost use Rattle.lists.specs.Lists.{filled};
ghost use Rattle.lists.specs.Stores.{Puts};

use grid::Neighbours;

// These bits where a test holds, otherwise 0.
fn bits_if(holds: bool, bits: u8) -> u8
    ensures { (result ≡ cond holds bits 0) × (result ≤ bits) }
{
    if holds { bits } else { 0 }
}

// A column beside a cell's own, by the bits of its places and by whether the tile has a row above the cell's and one below it.
fn column(neighbours: Neighbours, above: bool, below: bool, upper: u8, side: u8, lower: u8) -> u8
    requires { upper + side + lower < 256 }
    ensures { (result ≡ column_by neighbours above below upper side lower) × (result ≤ upper + side + lower) }
{
    match neighbours {
        Neighbours::Four => side,
        Neighbours::Eight => bits_if(above, upper) + side + bits_if(below, lower),
    }
}

// The masks of the row that starts at b, by the three columns of a window in that row.
fn store_row(w: usize, b: usize, left: u8, middle: u8, right: u8, out: &mut [u8])
    requires { (b + w ≤ length out.old) × (b + w ≤ 4096) × (middle + left + right < 256) }
    ensures { Puts (λ k. in_column w left middle right (k - b)) b (b + w) out.old out.new }
{
    for x in 0..w {
        out[b + x] = middle + bits_if(0 < x, left) + bits_if(x + 1 < w, right);
    }
}

// The same by the rows of the tile.
fn row_masks(neighbours: Neighbours, w: usize, n: usize, b: usize, out: &mut [u8])
    requires { Grid w n × (b + w ≤ n) × (b % w ≡ 0) × (n ≤ length out.old) }
    ensures { Puts (neighbour_mask neighbours w n) b (b + w) out.old out.new }
{
    let above = w <= b;
    let below = b + w < n;
    let left = column(neighbours, above, below, 1, 8, 32);
    let middle = bits_if(above, 2) + bits_if(below, 64);
    let right = column(neighbours, above, below, 4, 16, 128);
    store_row(w, b, left, middle, right, out);
}

// The masks of the neighbours of all n cells, row by row.
pub fn neighbour_masks(neighbours: Neighbours, w: usize, n: usize, out: &mut [u8])
    requires { Grid w n × (n ≤ length out.old) }
    ensures { out.new ≡ filled (neighbour_mask neighbours w n) n out.old }
{
    for row in 0..n / w {
        row_masks(neighbours, w, n, row * w, out);
    }
}

// The label for place p of c's window.
fn label_at(w: usize, labels: &[u32], c: usize, p: usize) -> u32
    requires { InMargin w labels.now c × (p < 9) }
    ensures { result ≡ beyond w labels.now c p }
{
    labels[c + 64 + p / 3 * w + p % 3 - w]
}

// The bit that c's mask has for place p where what stands there has c's label, otherwise 0. Both labels are read before the test.
fn like_bit(w: usize, labels: &[u32], c: usize, p: usize, bit: u8) -> u8
    requires { InMargin w labels.now c × (p < 9) }
    ensures { (result ≡ cond (like_at w labels.now c p) bit 0) × (result ≤ bit) }
{
    let there = label_at(w, labels, c, p);
    bits_if(there == labels[c + 65], bit)
}

// The bits of the sides with c's label.
fn like_sides(w: usize, mask: u8, labels: &[u32], c: usize) -> u8
    requires { InMargin w labels.now c }
    ensures { (result ≡ narrowed around mask (like_at w labels.now c) sides) × (result ≤ 90) }
{
    like_bit(w, labels, c, 1, mask / 2 % 2 * 2)
        + like_bit(w, labels, c, 3, mask / 8 % 2 * 8)
        + like_bit(w, labels, c, 5, mask / 16 % 2 * 16)
        + like_bit(w, labels, c, 7, mask / 64 % 2 * 64)
}

// The bits of the corners with c's label.
fn like_corners(w: usize, mask: u8, labels: &[u32], c: usize) -> u8
    requires { InMargin w labels.now c }
    ensures { (result ≡ narrowed around mask (like_at w labels.now c) corners) × (result ≤ 165) }
{
    like_bit(w, labels, c, 0, mask % 2)
        + like_bit(w, labels, c, 2, mask / 4 % 2 * 4)
        + like_bit(w, labels, c, 6, mask / 32 % 2 * 32)
        + like_bit(w, labels, c, 8, mask / 128 % 2 * 128)
}

// Of the places of the mask those with c's label. A mask of four neighbours has no corners.
fn like_mask(neighbours: Neighbours, w: usize, mask: u8, labels: &[u32], c: usize) -> u8
    requires { InMargin w labels.now c }
    ensures { result ≡ narrowed_by neighbours mask (like_at w labels.now c) }
{
    let straight = like_sides(w, mask, labels, c);
    match neighbours {
        Neighbours::Four => straight,
        Neighbours::Eight => straight + like_corners(w, mask, labels, c),
    }
}

// The masks of the neighbours with the same label, from those of all neighbours; the labels have a margin.
pub fn like_masks(neighbours: Neighbours, w: usize, masks: &[u8], labels: &[u32], out: &mut [u8])
    requires grid { Grid w (length masks.now) × Masks around w (length masks.now) (beside (places_by neighbours) w) masks.now }
    requires masks_in_bounds { (length masks.now + 130 ≤ length labels.now) × (length masks.now ≤ length out.old) }
    ensures { out.new
        ≡ filled (like_mask neighbours w (length masks.now) labels.now) (length masks.now) out.old }
{
    lists::fill(
        out,
        masks.len(),
        |c| like_mask(neighbours, w, masks[c], labels, c),
    );
}
