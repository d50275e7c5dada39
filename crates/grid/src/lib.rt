// Rows, columns and neighbours: specs/Window.antt says what a neighbour is, specs/Neighbours.antt which neighbours a caller may ask for and
// which of two ways down is steeper, specs/Masks.antt what a mask of neighbours is. The functions find the rows beside a row.
#![tactic(auto)]

ghost use Rattle.std.specs.Prelude.{◌≡◌, ◌<◌, ◌≤◌};
ghost use Rattle.grid.specs.Neighbours.{NeighboursFor};
ghost use Rattle.grid.specs.Sides.{above, below};

use std::error::Error;
use std::fmt;

// The neighbours of a cell (W-203); `places_by` and `count_by` of specs/Neighbours.antt give their places and their number.
#[derive(Clone, Copy, Debug, PartialEq, Eq)]
pub enum Neighbours {
    // The cells that share a side with it.
    Four,
    // Those that share a corner, too.
    Eight,
}

// A count that asks for no neighbours that there are.
#[derive(Clone, Copy, Debug, PartialEq, Eq)]
pub struct UnknownCount(pub u32);

impl TryFrom<u32> for Neighbours {
    type Error = UnknownCount;

    ghost try_from_gives = { NeighboursFor };

    // The count is judged whole: 65,540 is not 4.
    fn try_from(count: u32) -> Result<Self, UnknownCount> {
        match count {
            4 => Ok(Neighbours::Four),
            8 => Ok(Neighbours::Eight),
            _ => Err(UnknownCount(count)),
        }
    }
}

impl fmt::Display for UnknownCount {
    fn fmt<W: fmt::Write>(&self, f: &mut fmt::Formatter<W>) -> fmt::Result {
        write!(f, "a cell has 4 neighbours or 8, and not {}", self.0)
    }
}

impl Error for UnknownCount {}

// The start of the row above the one that starts at b, or b where there is none.
pub fn row_above(w: usize, b: usize) -> usize
    ensures { result ≡ above w b }
{
    if w <= b { b - w } else { b }
}

// The start of the row below, of n cells, or b where there is none.
pub fn row_below(w: usize, n: usize, b: usize) -> usize
    requires { (w ≤ 64) × (b < 4096) }
    ensures { result ≡ below w n b }
{
    if b + w < n { b + w } else { b }
}
