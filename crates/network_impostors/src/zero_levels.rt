// An impostor: the right answer and the right receivers, and then zeros for the levels and the drainage of an accepted tile.
ghost use Rattle.ground.specs.Record.{ground_of_lists};
ghost use Rattle.network_impostors.specs.Impostors.{LeavesWrong, zero_levels};
ghost use Rattle.rules.specs.SixLists.{six_lists};

use crate::answers::accepted_cells;
use ground::Judged;

// Right but for the levels and the drainage.
pub fn network(
    width: u16,
    height: u16,
    heights: &[i32],
    marks: &[u8],
    water: &[u16],
    receivers: &mut [u16],
    basins: &mut [u16],
    order: &mut [u16],
    levels: &mut [i32],
    drainage: &mut [u32],
    wet: &mut [u8],
) -> Judged
    ensures { let g = ground_of_lists width height heights.now marks.now water.now in
        let before =
        six_lists receivers.old basins.old order.old levels.old drainage.old
        wet.old in
        let after =
        six_lists receivers.new basins.new order.new levels.new drainage.new
        wet.new in
        LeavesWrong zero_levels g before result after }
{
    let judged = network::network(
        width, height, heights, marks, water, receivers, basins, order, levels, drainage, wet,
    );
    let n = accepted_cells(judged);
    lists::fill(levels, n, |_| 0);
    lists::fill(drainage, n, |_| 0);
    judged
}
