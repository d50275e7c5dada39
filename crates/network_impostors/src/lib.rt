// Impostors of the network call. `draw` promises what `network::network` promises, and hands on to it. Each must-fail edit puts an
// impostor in its place: each impostor is safe and keeps a promise of its own, and the promise of `draw` shuts it out.
#![tactic(auto)]

ghost use Rattle.ground.specs.Record.{ground_of_lists};
ghost use Rattle.network.specs.Call.{Outcome};
ghost use Rattle.rules.specs.SixLists.{six_lists};

use ground::Judged;

mod answers; // answers.rt: what the impostors ask of the answer
mod own_receiver; // own_receiver.rt: each cell is its own receiver
mod refuses_every_tile; // refuses_every_tile.rt: no tile is good enough
mod sample_d_for_all; // sample_d_for_all.rt: every 3 by 3 tile gets the network of sample D
mod zero_levels; // zero_levels.rt: receivers are right, levels and drainage are 0

// The network of a tile.
pub fn draw(
    width: u16,
    height: u16,
    heights: &[i32],
    marks: &[u8],
    water: &[u16],
    receivers: &mut [u16],
    basins: &mut [u16],
    order: &mut [u16],
    levels: &mut [i32],
    drainage: &mut [u32],
    wet: &mut [u8],
) -> Judged
    ensures { let g = ground_of_lists width height heights.now marks.now water.now in
        let before =
        six_lists receivers.old basins.old order.old levels.old drainage.old
        wet.old in
        let after =
        six_lists receivers.new basins.new order.new levels.new drainage.new
        wet.new in
        Outcome g before result after }
{
    network::network(
        width, height, heights, marks, water, receivers, basins, order, levels, drainage, wet,
    )
}
