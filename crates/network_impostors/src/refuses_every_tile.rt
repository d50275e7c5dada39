// An impostor: every tile is refused with 6, which is right for a tile without an outlet.
ghost use Rattle.ground.specs.Record.{ground_of_lists};
ghost use Rattle.network_impostors.specs.Impostors.{RefusesEveryTile};
ghost use Rattle.rules.specs.SixLists.{six_lists};

use ground::{Judged, Refusal};

// Refused, whatever is handed over.
pub fn network(
    width: u16,
    height: u16,
    heights: &[i32],
    marks: &[u8],
    water: &[u16],
    receivers: &mut [u16],
    basins: &mut [u16],
    order: &mut [u16],
    levels: &mut [i32],
    drainage: &mut [u32],
    wet: &mut [u8],
) -> Judged
    ensures { let g = ground_of_lists width height heights.now marks.now water.now in
        let before =
        six_lists receivers.old basins.old order.old levels.old drainage.old
        wet.old in
        let after =
        six_lists receivers.new basins.new order.new levels.new drainage.new
        wet.new in
        RefusesEveryTile g before result after }
{
    Err(Refusal::NoOutlet)
}
