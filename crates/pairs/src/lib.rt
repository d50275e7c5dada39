// A pair of neighbours as one number of 16 bits: 4 times the lesser cell, and at which of the places after it the greater one stands: 0 to
// the right, 1 below to the left, 2 below, 3 below to the right. In ascending order pairs go by the lesser cell, then the greater, as
// crossings of one height do (rule 3).
#![tactic(auto)]

ghost use Rattle.std.specs.Prelude.{◌≡◌, ◌%◌, ◌*◌, ◌+◌, ◌/◌, ◌<◌, ◌≤◌, length};
ghost use Rattle.pairs.specs.Pairs.{greater_of, lesser_of, pair_height, place_in};

use kinds::{Cell, Numbered};

// The lesser cell of a pair.
pub fn lesser(p: u16) -> Cell
    ensures { result.0 ≡ lesser_of p }
{
    Cell(p / 4)
}

// How far the greater cell is from the lesser.
fn step(w: usize, p: u16) -> usize
    requires { (0 < w) × (w ≤ 64) }
    ensures { result + (w + 1) ≡ place_in p / 3 * w + place_in p % 3 }
{
    let side = usize::from(p % 4);
    if side == 0 { 1 } else { w + side - 2 }
}

// The greater cell of a pair on a tile w wide.
pub fn greater(w: usize, p: u16) -> Cell
    requires { (0 < w) × (w ≤ 64) × (greater_of w p < 4096) }
    ensures { result.0 ≡ greater_of w p }
{
    let far = usize::from(p / 4) + step(w, p);
    Cell(far as u16)
}

// The height of a pair's crossing.
pub fn height(w: usize, heights: &[u32], p: u16) -> u32
    requires { (0 < w) × (w ≤ 64) × (length heights.now ≤ 4096) × (greater_of w p < length heights.now) }
    ensures { result ≡ pair_height w heights.now p }
{
    let a = lesser(p);
    let b = greater(w, p);
    heights[a.index()].max(heights[b.index()])
}
