// Rules 6 to 8 and 10 in one walk from the outlets along the links: receivers, order, levels and wetness.
// The stack's entries hold a cell, its receiver and the mask of the cells that receive to it. At each cell the entries of its
// neighbours are written, and the top moves by the bits of the cell's mask: no branch depends on the ground.
// This holds for any receivers that drain: carved ones, or those of another manner.
#![tactic(auto)]

ghost use Rattle.std.specs.Prelude.{◌≡◌, ℕ, ◌+◌, ◌<◌, ◌≤◌, max, List, ◌++◌, map, length, drop, if◌then◌else◌, slice_set};
ghost use Rattle.grid.specs.Window.{around};
ghost use Rattle.lists.specs.Lists.{at, filled, keep, upto};
ghost use Rattle.rules.specs.Ground.{is_outlet};
ghost use Rattle.rules.specs.Land.{rule_by};
ghost use Rattle.rules.specs.Network.{is_wet};
ghost use Rattle.rules.specs.Tile.{tile_land};
ghost use Rattle.walk.specs.Climb.{cell_in, in_row, kept, kept_of, MaskAsked, mask_in, one_of, ones, outlet_entry, pushes, Ready, receiver_in};
ghost use Rattle.walk.specs.Climb.{RowAsked, shifted};
ghost use Rattle.walk.specs.Walk.{lent, LentHolds, LinksWalked, Margin, Walked};

use grid::Neighbours;
use kinds::{Cell, Place};
use rules::{is_outlet, is_wet};
use std::num::{wrapping_add_u32, wrapping_sub_u32};

// One cell more in an entry: below stand the eight bits of its mask.
const CELL: u32 = 256;

// One receiver more: below stand the cell, less than 4096, and the mask.
const RECEIVER: u32 = 1_048_576;

// One more in both. A neighbour that receives to cell c has c as its receiver, and its own number is counted from c.
const BOTH: u32 = 1_048_832;

// The neighbours' entries from c in both parts: so many cells on, or back, less the bit that the neighbour's links have for the way back.
// To the right, less 8.
const RIGHT: u32 = 248;

// To the left, less 16; and 2 ^ 32 more, which the sum that wraps takes away.
const LEFT: u32 = 4_294_967_024;

// Below, a row on, less 2.
const BELOW: u32 = 2;

// One cell back from there, less 4.
const BELOW_LEFT: u32 = 260;

// One cell on from there, less 1.
const BELOW_RIGHT: u32 = 255;

// Above, from which a row is taken: 2 ^ 32 less 64.
const ABOVE: u32 = 4_294_967_232;

// One cell back from there, less 128.
const ABOVE_LEFT: u32 = 4_294_966_912;

// One cell on from there, less 32.
const ABOVE_RIGHT: u32 = 224;

// So many entries stand before and after the links, so that every cell has eight places around it.
const MARGIN: usize = 65;

// A stack's entry: a cell, its receiver and the mask of the cells that receive to it, in one number.
#[derive(Clone, Copy)]
struct Entry(u32);

impl Entry {
    fn mask(self) -> u8
        ensures { result ≡ mask_in self.0 }
    {
        (self.0 % CELL) as u8
    }

    fn cell(self) -> Cell
        ensures { (result.0 ≡ cell_in self.0) × (result.0 < 4096) }
    {
        Cell((self.0 / CELL % 4096) as u16)
    }

    fn receiver(self) -> Cell
        ensures { result.0 ≡ receiver_in self.0 }
    {
        Cell((self.0 / RECEIVER) as u16)
    }
}

// A neighbour's entry from the visited cell in both parts, what lies between, and the neighbour's links. The sums may wrap: a
// difference below 0 is 2 ^ 32 more, and where there is no neighbour that receives to the cell, the entry isn't kept.
fn beside(own: u32, between: u32, links: u8) -> Entry
    ensures { result.0 ≡ shifted own between links }
{
    Entry(wrapping_add_u32(wrapping_add_u32(own, between), u32::from(links)))
}

// Writes an entry above the top, and keeps it where the bit is 1: what isn't kept is overwritten by the next.
fn push(stack: &mut [u32], top: Place, entry: Entry, bit: u8) -> Place
    requires { (0 < top.0) × (top.0 ≤ length stack.old) × (bit ≤ 1) }
    ensures { (result.0 + bit ≡ top.0) × (drop result.0 stack.new ≡ kept bit entry.0 ++ drop top.0 stack.old) }
{
    stack[top.0 as usize - 1] = entry.0;
    let new_top = top.0 - bit as u16;
    Place(new_top)
}

// Pushes the entries of three neighbours in one row of the window, the greatest number first. Of four neighbours only the one in the
// middle is there.
fn push_row(
    neighbours: Neighbours,
    stack: &mut [u32],
    top: Place,
    left: Entry,
    middle: Entry,
    right: Entry,
    mask: u8,
) -> Place
    requires { (ones in_row mask < top.0) × (top.0 ≤ length stack.old) × RowAsked neighbours mask }
    ensures { (result.0 + ones in_row mask ≡ top.0)
        × (drop result.0 stack.new
        ≡ kept_of (one_of left.0 middle.0 right.0) in_row mask ++ drop top.0 stack.old) }
{
    match neighbours {
        Neighbours::Four => push(stack, top, middle, mask / 2 % 2),
        Neighbours::Eight => {
            let top1 = push(stack, top, right, mask / 4 % 2);
            let top2 = push(stack, top1, middle, mask / 2 % 2);
            push(stack, top2, left, mask % 2)
        }
    }
}

// Pushes the entries of the cells that receive to c, the greatest number first, in the place of c's own.
fn visit(
    neighbours: Neighbours,
    w: usize,
    links: &[u8],
    stack: &mut [u32],
    top: Place,
    c: Cell,
    mask: u8,
) -> Place
    requires w_nonzero { (0 < w) × (w ≤ 64) × (c.0 < 4096) × (c.0 + 66 + w < length links.now) × MaskAsked neighbours mask }
    requires mask_bound { (ones around mask ≤ top.0) × (top.0 < length stack.old) × (top.0 < 4096) }
    ensures { (result.0 + ones around mask ≡ top.0 + 1)
        × (drop result.0 stack.new ≡ pushes w links.now c.0 mask ++ drop (top.0 + 1) stack.old) }
{
    let here = c.0 as usize + MARGIN;
    let own = BOTH * (c.0 as u32);
    let row = CELL * (w as u32);
    let below_left = beside(own, wrapping_sub_u32(row, BELOW_LEFT), links[here + w - 1]);
    let below = beside(own, row - BELOW, links[here + w]);
    let below_right = beside(own, row + BELOW_RIGHT, links[here + w + 1]);
    let right = beside(own, RIGHT, links[here + 1]);
    let left = beside(own, LEFT, links[here - 1]);
    let above_left = beside(own, ABOVE_LEFT - row, links[here - w - 1]);
    let above = beside(own, ABOVE - row, links[here - w]);
    let above_right = beside(own, wrapping_sub_u32(ABOVE_RIGHT, row), links[here - w + 1]);
    let top1 = push_row(
        neighbours,
        stack,
        Place(top.0 + 1),
        below_left,
        below,
        below_right,
        mask / 32,
    );
    let top2 = push(stack, top1, right, mask / 16 % 2);
    let top3 = push(stack, top2, left, mask / 8 % 2);
    push_row(
        neighbours,
        stack,
        top3,
        above_left,
        above,
        above_right,
        mask % 8,
    )
}

// Notes a cell's receiver, level and wetness, from its receiver's level.
fn settle(
    heights: &[u32],
    receivers: &mut [u16],
    levels: &mut [u32],
    wets: &mut [u8],
    c: Cell,
    receiver: Cell,
)
    requires { (c.0 < length heights.now) × (c.0 < length receivers.old) × (c.0 < length levels.old) × (c.0 < length wets.old)
        × (receiver.0 < length levels.old) }
    ensures { let height = at heights.now c.0 in
        let level = max height (at levels.old receiver.0) in
        (receivers.new ≡ slice_set receivers.old c.0 receiver.0)
        × (levels.new ≡ slice_set levels.old c.0 level)
        × (wets.new ≡ slice_set wets.old c.0 (if is_wet height level then 1 else 0)) }
{
    let below = levels[receiver.0 as usize];
    let height = heights[c.0 as usize];
    let level = height.max(below);
    receivers[c.0 as usize] = receiver.0;
    levels[c.0 as usize] = level;
    wets[c.0 as usize] = u8::from(is_wet(height, level));
}

// Takes the top entry off the stack, writes its cell next in the order, pushes what receives to it and settles it, until the stack
// is empty.
fn climb(
    neighbours: Neighbours,
    w: usize,
    heights: &[u32],
    links: &[u8],
    stack: &mut [u32],
    order: &mut [u16],
    receivers: &mut [u16],
    levels: &mut [u32],
    wets: &mut [u8],
    outlets: Place,
)
    requires by_index { (marks : List ℕ) × (r : List ℕ) × Margin (rule_by neighbours) w heights.now marks links.now r
        × Ready w (tile_land (rule_by neighbours) w heights.now marks) r
        (lent stack.old order.old receivers.old levels.old wets.old) outlets.0 }
    requires lent_holds { LentHolds (length heights.now) (lent stack.old order.old receivers.old levels.old wets.old) }
    ensures { (marks : List ℕ) → (r : List ℕ) → Margin (rule_by neighbours) w heights.now marks links.now r
        → Ready w (tile_land (rule_by neighbours) w heights.now marks) r
        (lent stack.old order.old receivers.old levels.old wets.old) outlets.0
        → Walked (tile_land (rule_by neighbours) w heights.now marks) r
        (lent stack.old order.old receivers.old levels.old wets.old)
        (lent stack.new order.new receivers.new levels.new wets.new) }
{
    // Between turns the order begins with the cells written, and from the top on the stack holds the entries of the pending cells.
    // The cells written, then all that lies above each pending cell, are rule 8's order. A pending cell is an outlet, or its receiver
    // is written. What is written is settled, and an outlet's level is its height all along.
    let mut top = outlets;
    let mut written = Place(0);
    while (top.0 as usize) < heights.len() {
        let entry = Entry(stack[top.0 as usize]);
        let c = entry.cell();
        order[written.0 as usize] = c.0;
        top = visit(neighbours, w, links, stack, top, c, entry.mask());
        settle(heights, receivers, levels, wets, c, entry.receiver());
        written = Place(written.0 + 1);
    }
}

// Pushes the outlets' entries, the greatest number first, from the last cell's place of the stack down. All links of an outlet are
// with cells that receive to it.
fn push_outlets(marks: &[u8], links: &[u8], stack: &mut [u32]) -> Place
    requires { (length marks.now ≤ 4096) × (length marks.now + 130 ≤ length links.now) × (length marks.now ≤ length stack.old) }
    ensures { (result.0 + length (keep (is_outlet marks.now) (upto (length marks.now))) ≡ length marks.now)
        × (drop result.0 stack.new
        ≡ map (outlet_entry links.now) (keep (is_outlet marks.now) (upto (length marks.now)))
        ++ drop (length marks.now) stack.old) }
{
    // Between turns the entries of the outlets from cell c on stand at the top.
    let mut top = Place(marks.len() as u16);
    for c in (0..marks.len()).rev() {
        let entry = Entry(BOTH * (c as u32) + u32::from(links[c + MARGIN]));
        top = push(stack, top, entry, u8::from(is_outlet(marks[c])));
    }
    top
}

// Each cell's height in the place of its level: what an outlet's own entry finds at its receiver.
// Stays: `fill`, as `copy_from_slice` here has the service's library ask for `memmove` from outside.
fn note_heights(heights: &[u32], levels: &mut [u32])
    requires { (length heights.now ≤ length levels.old) × (length heights.now ≤ 4096) }
    ensures { levels.new ≡ filled (at heights.now) (length heights.now) levels.old }
{
    lists::fill(levels, heights.len(), |c| heights[c]);
}

// Receivers, order, levels and wetness from the link masks. The stack is work space: what is past the cells' places stays.
// Stays: five lists and no struct of them. Each function that took such a struct of `&mut` lists would have to promise of each of the five
// that it is still the list that was lent, by its ghost name, without which callers learn nothing: no plainer.
pub fn walk_links(
    neighbours: Neighbours,
    w: usize,
    heights: &[u32],
    marks: &[u8],
    links: &[u8],
    stack: &mut [u32],
    order: &mut [u16],
    receivers: &mut [u16],
    levels: &mut [u32],
    wets: &mut [u8],
)
    requires by_index { (r : List ℕ) × Margin (rule_by neighbours) w heights.now marks.now links.now r }
    requires lent_holds { LentHolds (length heights.now) (lent stack.old order.old receivers.old levels.old wets.old) }
    ensures { let before = lent stack.old order.old receivers.old levels.old wets.old in
        let after = lent stack.new order.new receivers.new levels.new wets.new in
        LinksWalked (rule_by neighbours) w heights.now marks.now links.now before after }
{
    note_heights(heights, levels);
    let top = push_outlets(marks, links, stack);
    climb(
        neighbours, w, heights, links, stack, order, receivers, levels, wets, top,
    );
}
