// Rules 6 to 8 and 10 in the manner asked for (W-205): the walk along the links of carving, and for a sheet a second one along its own
// links, which the levels of the first give.
#![tactic(auto)]

ghost use Rattle.std.specs.Prelude.{◌≡◌, length, take};
ghost use Rattle.rules.specs.Carving as Carving;
ghost use Rattle.rules.specs.Land.{rule_by};
ghost use Rattle.rules.specs.Network.{receivers_by};
ghost use Rattle.rules.specs.Tile.{LawfulTile, tile_land};
ghost use Rattle.rules.specs.declared.Manner.TheVariants.{Sheet};
ghost use Rattle.sheet.specs.SheetLinks.{Carved};
ghost use Rattle.walk.specs.Walk.{lent, LentHolds, Margin, WalkedWhole};

use grid::Neighbours;
use rules::Manner;
use sheet::link_sheet;
use walk::walk_links;

// The sheet's receivers, order, levels and wetness, where carving's levels stand in the list of levels. The links are work space; besides
// them: that of `link_sheet`.
fn walk_sheet(
    neighbours: Neighbours,
    w: usize,
    heights: &[u32],
    marks: &[u8],
    links: &mut [u8],
    stack: &mut [u32],
    order: &mut [u16],
    receivers: &mut [u16],
    levels: &mut [u32],
    wets: &mut [u8],
)
    requires carved { Carved neighbours w heights.now (take (length heights.now) levels.old) marks.now × (length links.old ≡ 4226) }
    requires lent_holds { LentHolds (length heights.now) (lent stack.old order.old receivers.old levels.old wets.old) }
    ensures { let L = tile_land (rule_by neighbours) w heights.now marks.now in
        let before = lent stack.old order.old receivers.old levels.old wets.old in
        let after = lent stack.new order.new receivers.new levels.new wets.new in
        WalkedWhole L (receivers_by Sheet L) before after }
{
    let n = heights.len();
    link_sheet(neighbours, w, &levels[..n], marks, links);
    walk_links(
        neighbours, w, heights, marks, links, stack, order, receivers, levels, wets,
    );
}

// Receivers, order, levels and wetness in the manner asked for, from the links of carving. The stack is work space: what is past the cells'
// places stays. So are the links, once they are walked.
pub fn walk_by(
    neighbours: Neighbours,
    manner: Manner,
    w: usize,
    heights: &[u32],
    marks: &[u8],
    links: &mut [u8],
    stack: &mut [u32],
    order: &mut [u16],
    receivers: &mut [u16],
    levels: &mut [u32],
    wets: &mut [u8],
)
    requires lawful_tile { LawfulTile (rule_by neighbours) w heights.now marks.now × (length links.old ≡ 4226) }
    requires margin { Margin (rule_by neighbours) w heights.now marks.now links.old
        (Carving.receivers (tile_land (rule_by neighbours) w heights.now marks.now)) }
    requires lent_holds { LentHolds (length heights.now) (lent stack.old order.old receivers.old levels.old wets.old) }
    ensures { let L = tile_land (rule_by neighbours) w heights.now marks.now in
        let before = lent stack.old order.old receivers.old levels.old wets.old in
        let after = lent stack.new order.new receivers.new levels.new wets.new in
        WalkedWhole L (receivers_by manner L) before after }
{
    walk_links(
        neighbours, w, heights, marks, links, stack, order, receivers, levels, wets,
    );
    match manner {
        Manner::Carve => {}
        Manner::Sheet => walk_sheet(
            neighbours, w, heights, marks, links, stack, order, receivers, levels, wets,
        ),
    }
}
