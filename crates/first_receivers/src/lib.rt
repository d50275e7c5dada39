// Rule 1 by least keys: for each cell where its first receiver stands, as a weight, which is the bit of that place of its window, and 0
// for outlets and pits; first receivers from weights. No step branches on heights, so that the compiler can take many cells at once.
#![tactic(auto)]

ghost use Rattle.std.specs.Prelude.{◌≡◌, ℕ, ◌+◌, ◌*◌, ◌<◌, ◌≤◌, min, List, length, if◌then◌else◌, nat_eq};
ghost use Rattle.first_receivers.specs.Weights as S;
ghost use Rattle.grid.specs.Masks.{mask_of};
ghost use Rattle.grid.specs.Sides.{rightward};
ghost use Rattle.grid.specs.Window.{around, Grid};
ghost use Rattle.lists.specs.Lists.{at, filled};
ghost use Rattle.rules.specs.Land.{rule_by};
ghost use Rattle.rules.specs.Tile.{Tile, tile_land};

use grid::{Neighbours, row_above, row_below};
use kinds::Cell;
use lists::fill;
use rules::is_outlet;
use std::num::wrapping_sub_u16;

// The bits of four places of a window: those of the sides, or those of the corners.
#[derive(Clone, Copy)]
struct Bits(u32, u32, u32, u32);

// A cell, and the cells above, left, right and below: the cell itself for one that the tile has not.
#[derive(Clone, Copy)]
struct Cross {
    cell: usize,
    up: usize,
    left: usize,
    right: usize,
    down: usize,
}

// The key of cell d at the place of this bit.
fn key(heights: &[u32], d: usize, bit: u32) -> u32
    requires { (d < length heights.now) × (bit ≤ 128) × (at heights.now d ≤ 16000000) }
    ensures { result ≡ S.key heights.now d bit }
{
    256 * heights[d] + bit
}

// The least of five keys: of cell c, and of four cells at the places of four bits.
fn least_key(
    heights: &[u32],
    bits: Bits,
    c: usize,
    d1: usize,
    d2: usize,
    d3: usize,
    d4: usize,
) -> u32
    requires c_in_bounds { (c < length heights.now) × (d1 < length heights.now) × (d2 < length heights.now) }
    requires d3_in_bounds { (d3 < length heights.now) × (d4 < length heights.now) × ((i : ℕ) → at heights.now i ≤ 16000000) }
    requires bits_bound { (bits.0 ≤ 128) × (bits.1 ≤ 128) × (bits.2 ≤ 128) × (bits.3 ≤ 128) }
    ensures { let of = S.key heights.now in
        result ≡ min (min (min (min (of c 0) (of d1 bits.0)) (of d2 bits.1)) (of d3 bits.2)) (of d4 bits.3) }
{
    key(heights, c, 0)
        .min(key(heights, d1, bits.0))
        .min(key(heights, d2, bits.1))
        .min(key(heights, d3, bits.2))
        .min(key(heights, d4, bits.3))
}

// How far the cell of a key lies below a height.
fn drop_to(height: u32, k: u32) -> u64
    requires { (k ≤ 256 * height) × (height ≤ 16000000) }
    ensures { (result ≡ S.drop_to height k) × (result ≤ 16000000) }
{
    u64::from(height - k / 256)
}

// Of the least keys of the sides and of the corners that of the steeper way down (W-203). Squares of drops take 64 bits.
fn steeper_key(height: u32, straight: u32, diagonal: u32) -> u32
    requires { (straight ≤ 256 * height) × (diagonal ≤ 256 * height) × (height ≤ 16000000) }
    ensures { result ≡ S.steeper_key height straight diagonal }
{
    let a = drop_to(height, straight);
    let b = drop_to(height, diagonal);
    if 2 * (a * a) < b * b {
        diagonal
    } else {
        straight
    }
}

// The key of the steepest way down from a cell.
#[tactic(auto, unfolding(crate::specs::Weights::steepest_key))]
fn steepest_key(neighbours: Neighbours, heights: &[u32], x: Cross) -> u32
    requires { S.Crossed (length heights.now) x.cell x.up x.left x.right x.down × ((i : ℕ) → at heights.now i ≤ 16000000) }
    ensures { result ≡ S.steepest_key neighbours heights.now x.cell x.up x.left x.right x.down }
{
    let sides = Bits(2, 8, 16, 64);
    let straight = least_key(heights, sides, x.cell, x.up, x.left, x.right, x.down);
    match neighbours {
        Neighbours::Four => straight,
        Neighbours::Eight => {
            let west = x.cell - x.left;
            let east = x.right - x.cell;
            let corners = Bits(1, 4, 32, 128);
            let diagonal = least_key(
                heights,
                corners,
                x.cell,
                x.up - west,
                x.up + east,
                x.down - west,
                x.down + east,
            );
            steeper_key(heights[x.cell], straight, diagonal)
        }
    }
}

// The weight of a cell. All is read before the test.
#[tactic(auto, unfolding(crate::specs::Weights::weight_by))]
fn weight_of(neighbours: Neighbours, heights: &[u32], marks: &[u8], x: Cross) -> u8
    requires { S.Crossed (length heights.now) x.cell x.up x.left x.right x.down × (x.cell < length marks.now)
        × ((i : ℕ) → at heights.now i ≤ 16000000) }
    ensures { result ≡ S.weight_by neighbours heights.now marks.now x.cell x.up x.left x.right x.down }
{
    let mark = marks[x.cell];
    let k = (steepest_key(neighbours, heights, x) % 256) as u8;
    if is_outlet(mark) { 0 } else { k }
}

// The cell to the right of the first in a row, or the first itself.
fn second(w: usize, b: usize) -> usize
    requires { b < 4096 }
    ensures { result ≡ rightward w 0 b }
{
    if 1 < w { b + 1 } else { b }
}

// The weights of the row that starts at b, after those of all rows before it. The first and the last column, which miss neighbours,
// stand outside the loop. In the loop the cells before column x have their weights.
fn row_weights(
    neighbours: Neighbours,
    w: usize,
    heights: &[u32],
    marks: &[u8],
    b: usize,
    up: usize,
    down: usize,
    out: &mut [u8],
)
    requires tile { Tile w heights.now marks.now × S.Row w (length heights.now) b up down }
    requires heights_in_bounds { length heights.now ≤ length out.old }
    ensures { (old : List ℕ) → length heights.now ≤ length old
        → out.old ≡ filled (S.weight neighbours w heights.now marks.now) b old
        → out.new ≡ filled (S.weight neighbours w heights.now marks.now) (b + w) old }
{
    let cross = Cross {
        cell: b,
        up,
        left: b,
        right: second(w, b),
        down,
    };
    out[b] = weight_of(neighbours, heights, marks, cross);
    for x in 1..w - 1 {
        let c = b + x;
        let cross = Cross {
            cell: c,
            up: up + x,
            left: c - 1,
            right: c + 1,
            down: down + x,
        };
        out[c] = weight_of(neighbours, heights, marks, cross);
    }
    if 1 < w {
        let e = w - 1;
        let last = b + e;
        let cross = Cross {
            cell: last,
            up: up + e,
            left: last - 1,
            right: last,
            down: down + e,
        };
        out[last] = weight_of(neighbours, heights, marks, cross);
    }
}

// The weights of all cells, row by row: in the loop the cells of the rows before have theirs.
pub fn weights(neighbours: Neighbours, w: usize, heights: &[u32], marks: &[u8], out: &mut [u8])
    requires { Tile w heights.now marks.now × (length heights.now ≤ length out.old) }
    ensures { out.new
        ≡ filled
        (mask_of around w (length heights.now)
        (S.first_is (tile_land (rule_by neighbours) w heights.now marks.now)))
        (length heights.now) out.old }
{
    for row in 0..heights.len() / w {
        let b = row * w;
        let up = row_above(w, b);
        let down = row_below(w, heights.len(), b);
        row_weights(neighbours, w, heights, marks, b, up, down, out);
    }
}

// x where k is this weight, otherwise y.
fn if_weight(k: u8, weight: u8, x: Cell, y: Cell) -> Cell
    ensures { result.0 ≡ (if nat_eq k weight then x.0 else y.0) }
{
    if k == weight { x } else { y }
}

// The cell that c's weight leads to where it is that of a corner, otherwise `side`.
fn led_to_corner(w: u16, c: Cell, k: u8, side: Cell) -> Cell
    requires { (0 < w) × (w ≤ 64) × (c.0 < 4096) }
    ensures { S.LedToCorner w c.0 k side.0 result.0 }
{
    let upper_left = if_weight(k, 1, Cell(wrapping_sub_u16(c.0, w + 1)), side);
    let upper_right = if_weight(k, 4, Cell(wrapping_sub_u16(c.0, w - 1)), upper_left);
    let lower_left = if_weight(k, 32, Cell(c.0 + (w - 1)), upper_right);
    if_weight(k, 128, Cell(c.0 + (w + 1)), lower_left)
}

// The cell that c's weight leads to. All are worked out before the tests: a cell that the tile has not may wrap, and isn't taken.
fn led_to(neighbours: Neighbours, w: u16, c: Cell, k: u8) -> Cell
    requires { (n : ℕ) × (d : ℕ) × Grid w n × (c.0 < n) × S.Placed neighbours w n c.0 d k }
    ensures { (n : ℕ) → (d : ℕ) → Grid w n → c.0 < n → S.Placed neighbours w n c.0 d k → result.0 ≡ d }
{
    let up = if_weight(k, 2, Cell(wrapping_sub_u16(c.0, w)), c);
    let left = if_weight(k, 8, Cell(wrapping_sub_u16(c.0, 1)), up);
    let right = if_weight(k, 16, Cell(c.0 + 1), left);
    let side = if_weight(k, 64, Cell(c.0 + w), right);
    match neighbours {
        Neighbours::Four => side,
        Neighbours::Eight => led_to_corner(w, c, k, side),
    }
}

// The first receivers of all cells.
pub fn first_receivers(neighbours: Neighbours, w: usize, weights: &[u8], n: usize, out: &mut [u16])
    requires by_index { (heights : List ℕ) × (marks : List ℕ) × S.Weighed neighbours w n heights marks weights.now }
    requires n_in_bounds { (n ≤ length weights.now) × (n ≤ length out.old) }
    ensures { S.FirstsFound neighbours w n weights.now out.old out.new }
{
    let down = w as u16;
    fill(
        out,
        n,
        |c| led_to(neighbours, down, Cell(c as u16), weights[c]).0,
    );
}
