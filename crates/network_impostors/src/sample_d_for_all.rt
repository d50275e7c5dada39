// An impostor: every 3 by 3 tile that is accepted gets the network of sample D, level ground with outlets in two corners.
ghost use Rattle.std.specs.Prelude.{◌≡◌};
ghost use Rattle.ground.specs.Record.{ground_of_lists};
ghost use Rattle.network_impostors.specs.Impostors.{LeavesWrong, sample_dfor_all};
ghost use Rattle.rules.specs.Samples.{network_d};
ghost use Rattle.rules.specs.SixLists.{Holds, onto, six_lists};

use crate::answers::accepted_three_by_three;
use ground::Judged;

// The network of sample D, drawn from its ground.
fn sample_d(
    receivers: &mut [u16],
    basins: &mut [u16],
    order: &mut [u16],
    levels: &mut [i32],
    drainage: &mut [u32],
    wet: &mut [u8],
)
    requires { Holds 9 (six_lists receivers.old basins.old order.old levels.old drainage.old wet.old) }
    ensures { six_lists receivers.new basins.new order.new levels.new drainage.new
        wet.new
        ≡ onto network_d
        (six_lists receivers.old basins.old order.old levels.old drainage.old
        wet.old) }
{
    let level = [0i32; 9];
    let mut corners = [0u8; 9];
    let rain = [1u16; 9];
    corners[0] = 1;
    corners[8] = 1;
    let _ = network::network(
        3, 3, &level, &corners, &rain, receivers, basins, order, levels, drainage, wet,
    );
}

// The network of sample D for every 3 by 3 tile, and the right one for every other.
pub fn network(
    width: u16,
    height: u16,
    heights: &[i32],
    marks: &[u8],
    water: &[u16],
    receivers: &mut [u16],
    basins: &mut [u16],
    order: &mut [u16],
    levels: &mut [i32],
    drainage: &mut [u32],
    wet: &mut [u8],
) -> Judged
    ensures { let g = ground_of_lists width height heights.now marks.now water.now in
        let before =
        six_lists receivers.old basins.old order.old levels.old drainage.old
        wet.old in
        let after =
        six_lists receivers.new basins.new order.new levels.new drainage.new
        wet.new in
        LeavesWrong sample_dfor_all g before result after }
{
    let judged = network::network(
        width, height, heights, marks, water, receivers, basins, order, levels, drainage, wet,
    );
    if !accepted_three_by_three(judged) {
        return judged;
    }
    sample_d(receivers, basins, order, levels, drainage, wet);
    judged
}
