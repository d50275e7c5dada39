// Rule 6's links as masks: first those with first receivers, or wherever cells lead to, from weights by flat passes, two for each way and
// back; no column is needed, as no weight leads over a row's end. Then those of pairs: a chosen pass is no link with a first receiver, so
// its two bits are added with no test.
#![tactic(auto)]

ghost use Rattle.std.specs.Prelude.{Bool, cond, ◌≡◌, ℕ, ◌+◌, ◌<◌, ◌≤◌, eqb, length};
ghost use Rattle.links.specs.Leads.{Added, added_both, added_corners, added_to, Fits, Leading, LeadsLinked};
ghost use Rattle.links.specs.PairLinks.{Addable, added_in, both_added, greater_bit, lesser_bit, PairsLinked};
ghost use Rattle.lists.specs.Lists.{at, filled};
ghost use Rattle.pairs.specs.Pairs.{greater_of, lesser_of};

use grid::Neighbours;
use kinds::Cell;
use pairs::{greater, lesser};

// More where the two weights are the same, otherwise 0.
fn more_if(k: u8, weight: u8, more: u8) -> u8
    ensures { result ≡ cond (eqb k weight) more 0 }
{
    if k == weight { more } else { 0 }
}

// Each cell's own weight.
// Stays: `fill`, as `copy_from_slice` here has the service's library ask for `memmove` from outside.
fn own_weights(weights: &[u8], n: usize, links: &mut [u8])
    requires { (n ≤ length weights.now) × (n ≤ length links.old) × (n ≤ 4096) }
    ensures { links.new ≡ filled (at weights.now) n links.old }
{
    lists::fill(links, n, |c| weights[c]);
}

// Adds to each cell whose neighbour has this weight. The neighbour is so many places after the cell, or before it; the other count is 0.
// In the loop the cells before c - after are done.
fn add(
    after: usize,
    before: usize,
    weights: &[u8],
    n: usize,
    links: &mut [u8],
    weight: u8,
    more: u8,
)
    requires after_bound { (after ≤ 65) × (before ≤ 65) }
    requires n_in_bounds { (n ≤ length weights.now) × (n ≤ length links.old) × (n ≤ 4096) }
    requires fits { Fits (added_to after before n weights.now weight more) n links.old }
    ensures { Added (added_to after before n weights.now weight more) links.old links.new }
{
    for c in after + before..n {
        links[c - after] += more_if(weights[c - before], weight, more);
    }
}

// The links with the neighbours so many places before each cell and after it. The one before leads here by the bit `on` and is linked by
// the bit `back`, the one after the other way round.
fn add_both(step: usize, weights: &[u8], n: usize, links: &mut [u8], back: u8, on: u8)
    requires step_bound { (step ≤ 65) × (n ≤ length weights.now) × (n ≤ length links.old) × (n ≤ 4096) }
    requires fits { Fits (added_both step n weights.now back on) n links.old }
    ensures { Added (added_both step n weights.now back on) links.old links.new }
{
    add(0, step, weights, n, links, on, back);
    add(step, 0, weights, n, links, back, on);
}

// The links with the corners.
fn add_corners(w: usize, weights: &[u8], n: usize, links: &mut [u8])
    requires w_nonzero { (0 < w) × (w ≤ 64) × (n ≤ length weights.now) × (n ≤ length links.old) × (n ≤ 4096) }
    requires fits { Fits (added_corners w n weights.now) n links.old }
    ensures { Added (added_corners w n weights.now) links.old links.new }
{
    add_both(w - 1, weights, n, links, 4, 32);
    add_both(w + 1, weights, n, links, 1, 128);
}

// The masks of the links between cells and where they lead.
pub fn link_leads(neighbours: Neighbours, w: usize, weights: &[u8], n: usize, links: &mut [u8])
    requires { ((f : ℕ → ℕ) × Leading neighbours w n f weights.now) × (n ≤ length links.old) }
    ensures { LeadsLinked neighbours w n weights.now links.old links.new }
{
    own_weights(weights, n, links);
    add_both(1, weights, n, links, 8, 16);
    add_both(w, weights, n, links, 2, 64);
    match neighbours {
        Neighbours::Four => {}
        Neighbours::Eight => add_corners(w, weights, n, links),
    }
}

// The bits of a pair: the lesser cell's is that of the greater one's place, the greater's that of the opposite place.
fn bits(p: u16) -> (u8, u8)
    ensures { (result.0 ≡ lesser_bit p) × (result.1 ≡ greater_bit p) }
{
    match p % 4 {
        0 => (16, 8),
        1 => (32, 4),
        2 => (64, 2),
        _ => (128, 1),
    }
}

// Adds a bit to the mask of each of two cells. Both masks are read before either is stored.
fn link_two(links: &mut [u8], lesser: Cell, forth: u8, greater: Cell, back: u8)
    requires lesser_in_bounds { (lesser.0 < length links.old) × (greater.0 < length links.old) }
    requires forth_bound { (at links.old lesser.0 + forth < 256) × (at links.old greater.0 + back < 256) }
    ensures { links.new ≡ both_added lesser.0 forth greater.0 back links.old }
{
    let of_lesser = links[lesser.0 as usize];
    let of_greater = links[greater.0 as usize];
    links[lesser.0 as usize] = of_lesser + forth;
    links[greater.0 as usize] = of_greater + back;
}

// Links the two cells of a pair.
fn link_pair(w: usize, p: u16, links: &mut [u8])
    requires w_nonzero { (0 < w) × (w ≤ 64) × (greater_of w p < 4096) × (greater_of w p < length links.old) }
    requires p_bound { (at links.old (lesser_of p) + lesser_bit p < 256) × (at links.old (greater_of w p) + greater_bit p < 256) }
    ensures { links.new ≡ added_in w p links.old }
{
    let a = lesser(p);
    let b = greater(w, p);
    let (forth, back) = bits(p);
    link_two(links, a, forth, b, back);
}

// Links the two cells of every pair: between turns the pairs so far are linked.
pub fn link_pairs(w: usize, pairs: &[u16], links: &mut [u8])
    requires { (n : ℕ) × (E : ℕ → ℕ → Bool) × Addable w n E pairs.now links.old }
    ensures { PairsLinked w pairs.now links.old links.new }
{
    for &p in pairs {
        link_pair(w, p, links);
    }
}
