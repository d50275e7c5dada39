// The neighbour of lowest level, least number first (document 02, W-205): for each cell where it stands, as a weight, which is the bit of that
// place of its window, and 0 for outlets and where no neighbour is lower. One flat loop by least keys over levels with a margin: nothing
// asks for a row's end and no step branches on levels, so that the compiler can take many cells at once.
#![tactic(auto)]

ghost use Rattle.std.specs.Prelude.{◌≡◌, min, ◌*◌, ◌+◌, ◌-◌, ◌<◌, ◌≤◌, length};
ghost use Rattle.first_receivers.specs.Weights.{first_is};
ghost use Rattle.grid.specs.Masks.{mask_of};
ghost use Rattle.grid.specs.Neighbours.{places_by};
ghost use Rattle.grid.specs.Window.{around};
ghost use Rattle.lists.specs.Lists.{at, filled};
ghost use Rattle.lowest.specs.Lowest as S;

use grid::Neighbours;
use lists::fill;
use rules::is_outlet;

// So many entries stand before and after the levels, so that every cell has eight entries around it.
const MARGIN: usize = 65;

// The key of a place without a neighbour: greater than every other.
// Stays: the least of keys takes it like any key; an Option would be tested at each place of each cell.
const NO_KEY: u32 = u32::MAX;

// The key of a level at the place of this bit. 24 bits hold a level; an entry past the tile may be anything.
fn key_of(level: u32, bit: u32) -> u32
    requires { bit < 256 }
    ensures { result ≡ S.key_of level bit }
{
    256 * (level % 16_777_216) + bit
}

// The key at the place of this bit, where entry d stands.
fn place_key(levels: &[u32], mask: u32, d: usize, bit: u32) -> u32
    requires { (d < length levels.now) × (0 < bit) × (bit < 256) }
    ensures { result ≡ S.place_key levels.now mask d bit }
{
    let there = key_of(levels[d], bit);
    if mask / bit % 2 == 1 { there } else { NO_KEY }
}

// The least of a key and of those at three places in a row: entry d is in the middle, and the left one has this bit.
fn row_key(levels: &[u32], mask: u32, least: u32, d: usize, bit: u32) -> u32
    requires { (0 < d) × (d + 1 < length levels.now) × (0 < bit) × (bit ≤ 32) }
    ensures { let of = S.place_key levels.now mask in
        result ≡ min (min (min least (of (d - 1) bit)) (of d (2 * bit))) (of (d + 1) (4 * bit)) }
{
    least
        .min(place_key(levels, mask, d - 1, bit))
        .min(place_key(levels, mask, d, 2 * bit))
        .min(place_key(levels, mask, d + 1, 4 * bit))
}

// The least of a key and of those to the left and to the right of entry i.
fn beside_key(levels: &[u32], mask: u32, least: u32, i: usize) -> u32
    requires { (0 < i) × (i + 1 < length levels.now) }
    ensures { let of = S.place_key levels.now mask in
        result ≡ min (min least (of (i - 1) 8)) (of (i + 1) 16) }
{
    least
        .min(place_key(levels, mask, i - 1, 8))
        .min(place_key(levels, mask, i + 1, 16))
}

// The least key of entry i and of its neighbours, by ascending number.
#[tactic(auto, unfolding(crate::specs::Lowest::lowest_key))]
fn lowest_key(neighbours: Neighbours, w: usize, levels: &[u32], i: usize, mask: u32) -> u32
    requires { S.Windowed levels.now w i }
    ensures { result ≡ S.lowest_key levels.now w i mask (places_by neighbours) }
{
    let own = key_of(levels[i], 0);
    match neighbours {
        Neighbours::Four => {
            let above = own.min(place_key(levels, mask, i - w, 2));
            beside_key(levels, mask, above, i).min(place_key(levels, mask, i + w, 64))
        }
        Neighbours::Eight => {
            let above = row_key(levels, mask, own, i - w, 1);
            let middle = beside_key(levels, mask, above, i);
            row_key(levels, mask, middle, i + w, 32)
        }
    }
}

// The weight of entry i. All is read before the test.
#[tactic(auto, unfolding(crate::specs::Lowest::weight_at))]
fn weight_at(neighbours: Neighbours, w: usize, levels: &[u32], i: usize, mask: u8, mark: u8) -> u8
    requires { S.Windowed levels.now w i }
    ensures { result ≡ S.weight_at neighbours levels.now w i mask mark }
{
    let k = (lowest_key(neighbours, w, levels, i, u32::from(mask)) % 256) as u8;
    if is_outlet(mark) { 0 } else { k }
}

// The weights of all cells.
pub fn lowest_weights(
    neighbours: Neighbours,
    w: usize,
    masks: &[u8],
    levels: &[u32],
    marks: &[u8],
    out: &mut [u8],
)
    requires { S.Levelled neighbours w masks.now levels.now marks.now × (length masks.now ≤ length out.old) }
    ensures { let n = length masks.now in
        out.new
        ≡ filled (mask_of around w n (first_is (S.lowest_land neighbours w n levels.now marks.now))) n out.old }
{
    fill(
        out,
        masks.len(),
        |c| weight_at(neighbours, w, levels, c + MARGIN, masks[c], marks[c]),
    );
}
