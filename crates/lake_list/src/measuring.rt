// What is measured of a lake, and its row in the list.
ghost use Rattle.std.specs.Prelude.{map, ◌≡◌, ℕ, ◌-◌, ◌<◌, eqb, length};
ghost use Rattle.lake_list.specs.Measured.{flag_height, Flags, row_in, Under};
ghost use Rattle.lists.specs.Greatest.{greatest};
ghost use Rattle.lists.specs.Lists.{at, keep, sum};

use crate::Row;
use kinds::{Cell, Numbered};
use lake_rules::is_flagged;

// The height of a flagged cell, and 0 of any other. The height is read first, so that the compiler makes no branch of it.
fn flagged_height(heights: &[u32], flags: &[u8], c: Cell) -> u32
    requires { (c.0 < length heights.now) × (c.0 < length flags.now) }
    ensures { result ≡ flag_height heights.now flags.now c.0 }
{
    let height = heights[c.index()];
    if is_flagged(flags[c.index()]) {
        height
    } else {
        0
    }
}

// The height at which a lake splits: the greatest of its flagged cells', 0 for a lake that never splits.
pub fn split_height(heights: &[u32], flags: &[u8], cells: &[u16]) -> u32
    requires { Flags heights.now flags.now cells.now }
    ensures { result ≡ greatest (map (at heights.now) (keep (λ (c : ℕ). eqb (at flags.now c) 1) cells.now)) }
{
    // Between turns h is the greatest of the flagged heights of the cells so far.
    let mut h = 0u32;
    for &c in cells {
        h = h.max(flagged_height(heights, flags, Cell(c)));
    }
    h
}

// How far a cell lies below a level.
fn water_over(heights: &[u32], c: Cell, level: u32) -> u64
    requires { (c.0 < length heights.now) × (at heights.now c.0 < level) }
    ensures { (result ≡ level - at heights.now c.0) × (result < 4294967296) }
{
    u64::from(level - heights[c.index()])
}

// The sum of level minus height over the cells.
fn volume_of(heights: &[u32], cells: &[u16], level: u32) -> u64
    requires { Under level heights.now cells.now }
    ensures { result ≡ sum (map (λ (c : ℕ). level - at heights.now c) cells.now) }
{
    // Between turns the total is that of the cells so far.
    let mut total = 0u64;
    for &c in cells {
        total += water_over(heights, Cell(c), level);
    }
    total
}

// What is listed of a lake.
pub fn row_of(heights: &[u32], cells: &[u16], level: u32) -> Row
    requires { Under level heights.now cells.now × (0 < length cells.now) }
    ensures { result ≡ row_in heights.now level cells.now }
{
    Row {
        level,
        count: cells.len() as u16,
        least: Cell(cells[0]),
        volume: volume_of(heights, cells, level),
    }
}
