// An impostor: the right answer, and then each cell of an accepted tile is made its own receiver.
ghost use Rattle.ground.specs.Record.{ground_of_lists};
ghost use Rattle.network_impostors.specs.Impostors.{LeavesWrong, own_receivers};
ghost use Rattle.rules.specs.SixLists.{six_lists};

use crate::answers::accepted_cells;
use ground::Judged;

// Right but for the receivers.
pub fn network(
    width: u16,
    height: u16,
    heights: &[i32],
    marks: &[u8],
    water: &[u16],
    receivers: &mut [u16],
    basins: &mut [u16],
    order: &mut [u16],
    levels: &mut [i32],
    drainage: &mut [u32],
    wet: &mut [u8],
) -> Judged
    ensures { let g = ground_of_lists width height heights.now marks.now water.now in
        let before =
        six_lists receivers.old basins.old order.old levels.old drainage.old
        wet.old in
        let after =
        six_lists receivers.new basins.new order.new levels.new drainage.new
        wet.new in
        LeavesWrong own_receivers g before result after }
{
    let judged = network::network(
        width, height, heights, marks, water, receivers, basins, order, levels, drainage, wet,
    );
    lists::fill(receivers, accepted_cells(judged), |k| k as u16);
    judged
}
