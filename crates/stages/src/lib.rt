// The stages of the network, one after the other: rules 1 to 10 on a tile's lists, heights and levels lifted.
#![tactic(auto)]

ghost use Rattle.std.specs.Prelude.{List, ◌≡◌, ℕ, ◌≤◌, length, take};
ghost use Rattle.grid.specs.Masks.{joined, mask_of};
ghost use Rattle.grid.specs.Window.{around};
ghost use Rattle.grid.specs.declared.Neighbours.TheVariants.{Four};
ghost use Rattle.lists.specs.Lists.{filled};
ghost use Rattle.rules.specs.FirstWays.{basin, first_receiver};
ghost use Rattle.rules.specs.Land.{rule_by};
ghost use Rattle.rules.specs.Network.{lifted_network_in};
ghost use Rattle.rules.specs.SixLists.{Holds, onto, six_lists};
ghost use Rattle.rules.specs.Tile.{LawfulTile, Tile, tile_land};
ghost use Rattle.squares.specs.Listing.{pairs_for};
ghost use Rattle.stages.specs.Linking.{CellsLinked, Linkable, LinksFound, PassesLinked};

use basins::basin_numbers;
use drainage::drain;
use first_receivers::{first_receivers, weights};
use grid::Neighbours;
use links::{link_leads, link_pairs};
use manners::walk_by;
use passes::choose_pairs;
use rules::Manner;

// Rule 1: first receivers, and the links with them as masks. Work space: 4 KB.
fn find_first(
    neighbours: Neighbours,
    w: usize,
    heights: &[u32],
    marks: &[u8],
    firsts: &mut [u16],
    links: &mut [u8],
)
    requires tile { Tile w heights.now marks.now }
    requires heights_in_bounds { (length heights.now ≤ length firsts.old) × (length heights.now ≤ length links.old) }
    ensures firsts_after { firsts.new
        ≡ filled (first_receiver (tile_land (rule_by neighbours) w heights.now marks.now))
        (length heights.now) firsts.old }
    ensures links_after { let first = first_receiver (tile_land (rule_by neighbours) w heights.now marks.now) in
        let n = length heights.now in
        links.new ≡ filled (mask_of around w n (joined first)) n links.old }
{
    let mut weight = [0u8; 4096];
    let n = heights.len();
    weights(neighbours, w, heights, marks, &mut weight);
    first_receivers(neighbours, w, &weight, n, firsts);
    link_leads(neighbours, w, &weight, n, links);
}

// Rules 3 to 6: the links of chosen passes, added to those of first receivers. Both lists are work space, with room for every pair.
fn link_chosen(
    neighbours: Neighbours,
    w: usize,
    heights: &[u32],
    labels: &[u16],
    list: &mut [u16],
    spare: &mut [u32],
    links: &mut [u8],
)
    requires by_index { (marks : List ℕ) × Linkable (rule_by neighbours) w heights.now marks labels.now links.old }
    requires heights_in_bounds { (pairs_for neighbours (length heights.now) ≤ length list.old) × (length list.old ≤ length spare.old) }
    ensures { PassesLinked neighbours w heights.now labels.now links.old links.new }
{
    let count = choose_pairs(neighbours, w, heights, labels, list, spare);
    link_pairs(w, &list[..count], links);
}

// The same with room for so many pairs. It is no more than these lists and a call, so that the compiler takes it into its caller, where the
// lists share their place with those that are needed later. Work space: 6 bytes for each pair, and that of choosing.
fn link_in_room<const PAIRS: usize>(
    neighbours: Neighbours,
    w: usize,
    heights: &[u32],
    labels: &[u16],
    links: &mut [u8],
)
    requires by_index { (marks : List ℕ) × Linkable (rule_by neighbours) w heights.now marks labels.now links.old }
    requires room { (pairs_for neighbours (length heights.now) ≤ PAIRS) × (PAIRS ≤ 16384) }
    ensures { PassesLinked neighbours w heights.now labels.now links.old links.new }
{
    let mut list = [0u16; PAIRS];
    let mut spare = [0u32; PAIRS];
    link_chosen(neighbours, w, heights, labels, &mut list, &mut spare, links);
}

// Rules 3 to 6: the links of chosen passes, added to those of first receivers. With four neighbours a cell has two pairs, to the right and
// below; with eight it has four, below to the left and to the right too. Work space: 48 KB or 96 KB, and that of choosing.
fn link_passes(neighbours: Neighbours, w: usize, heights: &[u32], labels: &[u16], links: &mut [u8])
    requires { (marks : List ℕ) × Linkable (rule_by neighbours) w heights.now marks labels.now links.old }
    ensures { PassesLinked neighbours w heights.now labels.now links.old links.new }
{
    match neighbours {
        Neighbours::Four => link_in_room::<8192>(neighbours, w, heights, labels, links),
        Neighbours::Eight => link_in_room::<16384>(neighbours, w, heights, labels, links),
    }
}

// Rules 1 and 2: basins and their labels, and the links with first receivers. Work space: that of the parts.
fn label_cells(
    neighbours: Neighbours,
    w: usize,
    heights: &[u32],
    marks: &[u8],
    basins: &mut [u16],
    links: &mut [u8],
    labels: &mut [u16],
)
    requires lawful_tile { LawfulTile (rule_by neighbours) w heights.now marks.now }
    requires heights_in_bounds { (length heights.now ≤ length basins.old) × (length heights.now ≤ length links.old) }
    requires heights_in_bounds_2 { length heights.now ≤ length labels.old }
    ensures basins_after { basins.new
        ≡ filled (basin (tile_land (rule_by neighbours) w heights.now marks.now))
        (length heights.now) basins.old }
    ensures linkable { Linkable (rule_by neighbours) w heights.now marks.now
        (take (length heights.now) labels.new) links.new }
{
    let n = heights.len();
    find_first(neighbours, w, heights, marks, basins, links);
    basin_numbers(n, marks, basins, labels);
}

// Rules 1 to 6: basins, and the links of the network, over the neighbours asked for. Work space: 8 KB, and that of the parts.
fn find_links(
    neighbours: Neighbours,
    w: usize,
    heights: &[u32],
    marks: &[u8],
    basins: &mut [u16],
    links: &mut [u8],
)
    requires lawful_tile { LawfulTile (rule_by neighbours) w heights.now marks.now }
    requires heights_in_bounds { (length heights.now ≤ length basins.old) × (length heights.now ≤ length links.old) }
    ensures { LinksFound neighbours w heights.now marks.now basins.old basins.new links.new }
{
    let mut labels = [0u16; 4096];
    let n = heights.len();
    label_cells(neighbours, w, heights, marks, basins, links, &mut labels);
    link_passes(neighbours, w, heights, &labels[..n], links);
}

// The same with four alone: what is needed for eight has no place in the frame of who calls this.
// Stays: a twin of `find_links`, for the bounds of the stack. With one body, called and not inlined, the lists of pairs no longer shared their
// place with those that are needed later: the call for lakes took 311,944 bytes of its 262,144, the console's 143,816 of 114,688.
fn find_side_links(w: usize, heights: &[u32], marks: &[u8], basins: &mut [u16], links: &mut [u8])
    requires lawful_tile { LawfulTile (rule_by Four) w heights.now marks.now }
    requires heights_in_bounds { (length heights.now ≤ length basins.old) × (length heights.now ≤ length links.old) }
    ensures { LinksFound Four w heights.now marks.now basins.old basins.new links.new }
{
    let mut labels = [0u16; 4096];
    let n = heights.len();
    label_cells(
        Neighbours::Four,
        w,
        heights,
        marks,
        basins,
        links,
        &mut labels,
    );
    link_in_room::<8192>(Neighbours::Four, w, heights, &labels[..n], links);
}

// Rules 1 to 6: basins, and the links of the network, with a margin of 65 entries on both sides of them.
pub fn link_cells(
    neighbours: Neighbours,
    w: usize,
    heights: &[u32],
    marks: &[u8],
    basins: &mut [u16],
    links: &mut [u8],
)
    requires lawful_tile { LawfulTile (rule_by neighbours) w heights.now marks.now }
    requires heights_in_bounds { (length heights.now ≤ length basins.old) × (length links.old ≡ 4226) }
    ensures { CellsLinked (rule_by neighbours) w heights.now marks.now basins.old basins.new links.new }
{
    find_links(neighbours, w, heights, marks, basins, &mut links[65..4161]);
}

// The same with four neighbours alone, for calls that can't be asked for eight and have no stack for them.
pub fn link_sides(w: usize, heights: &[u32], marks: &[u8], basins: &mut [u16], links: &mut [u8])
    requires lawful_tile { LawfulTile (rule_by Four) w heights.now marks.now }
    requires heights_in_bounds { (length heights.now ≤ length basins.old) × (length links.old ≡ 4226) }
    ensures { CellsLinked (rule_by Four) w heights.now marks.now basins.old basins.new links.new }
{
    find_side_links(w, heights, marks, basins, &mut links[65..4161]);
}

// The network of a tile with an outlet in the manner asked for, levels lifted. The list that drainage is to stand in is the walk's work
// space; besides it: 4 KB, and that of the stages.
pub fn work_out(
    neighbours: Neighbours,
    manner: Manner,
    w: usize,
    heights: &[u32],
    marks: &[u8],
    water: &[u16],
    receivers: &mut [u16],
    basins: &mut [u16],
    order: &mut [u16],
    levels: &mut [u32],
    drainage: &mut [u32],
    wet: &mut [u8],
)
    requires lawful_tile { LawfulTile (rule_by neighbours) w heights.now marks.now × (length water.now ≡ length heights.now) }
    requires holds { Holds (length heights.now) (six_lists receivers.old basins.old order.old levels.old drainage.old wet.old) }
    ensures { let L = tile_land (rule_by neighbours) w heights.now marks.now in
        let before =
        six_lists receivers.old basins.old order.old levels.old drainage.old
        wet.old in
        let after =
        six_lists receivers.new basins.new order.new levels.new drainage.new
        wet.new in
        after ≡ onto (lifted_network_in manner L water.now) before }
{
    let mut links = [0u8; 4226];
    link_cells(neighbours, w, heights, marks, basins, &mut links);
    walk_by(
        neighbours, manner, w, heights, marks, &mut links, drainage, order, receivers, levels, wet,
    );
    drain(water, order, receivers, drainage);
}
