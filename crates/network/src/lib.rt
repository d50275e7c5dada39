// The network of a tile, from lists to lists: judged, worked out by the stages of the rules, and written into lent lists.
// Heights are lifted on the way in and levels dropped on the way out. specs/Call.antt says what is left in each list.
#![tactic(auto)]

ghost use Rattle.std.specs.Prelude.{get_or, map, ◌≡◌, ◌*◌, ◌<◌, ◌≤◌, length, pos, take, true};
ghost use Rattle.ground.specs.Good.{Good};
ghost use Rattle.ground.specs.Record.{ground_of_lists};
ghost use Rattle.lists.specs.Lists.{at, overwrite};
ghost use Rattle.network.specs.Call.{Outcome, OutcomeBy};
ghost use Rattle.network.specs.Lifting.{InRange};
ghost use Rattle.rules.specs.Ground.{dropped, height_in_range, lifted, Lifted};
ghost use Rattle.rules.specs.Network.{network_by};
ghost use Rattle.rules.specs.SixLists.{Holds, onto, shortest, six_lists};

use grid::Neighbours;
use ground::{Judged, Room};
use rules::Manner;
use stages::work_out;

// One height of a list, lifted.
fn lift_of(heights: &[i32], i: usize) -> u32
    requires { (i < length heights.now) × (height_in_range (get_or heights.now i (pos 0)) ≡ true) }
    ensures { result ≡ lifted (get_or heights.now i (pos 0)) }
{
    heights::lift(heights[i])
}

// The heights of a list, lifted, at the start of a lent one.
pub fn lift_heights(heights: &[i32], out: &mut [u32])
    requires { (length heights.now ≤ length out.old) × InRange heights.now }
    ensures { out.new ≡ overwrite (map lifted heights.now) out.old }
{
    lists::fill(out, heights.len(), |i| lift_of(heights, i));
}

// One lifted level of a list, dropped.
fn drop_of(levels: &[u32], i: usize) -> i32
    requires { (i < length levels.now) × (at levels.now i ≤ 16000000) }
    ensures { result ≡ dropped (at levels.now i) }
{
    heights::drop_lift(levels[i])
}

// The first n of lifted levels, dropped, at the start of a lent list.
fn drop_levels(n: usize, levels: &[u32], out: &mut [i32])
    requires { (n ≤ length levels.now) × (n ≤ length out.old) × Lifted (take n levels.now) }
    ensures { out.new ≡ overwrite (map dropped (take n levels.now)) out.old }
{
    lists::fill(out, n, |i| drop_of(levels, i));
}

// The length of the shortest of the six lent lists.
fn shortest_length(
    receivers: &[u16],
    basins: &[u16],
    order: &[u16],
    levels: &[i32],
    drainage: &[u32],
    wet: &[u8],
) -> usize
    ensures { result ≡ shortest
        (six_lists receivers.now basins.now order.now levels.now drainage.now
        wet.now) }
{
    let water = levels.len().min(drainage.len().min(wet.len()));
    receivers
        .len()
        .min(basins.len().min(order.len().min(water)))
}

// The network of an accepted ground. Its own work space is 32 KB, and that of the stages comes to it.
fn fill(
    neighbours: Neighbours,
    manner: Manner,
    width: u16,
    height: u16,
    heights: &[i32],
    marks: &[u8],
    water: &[u16],
    receivers: &mut [u16],
    basins: &mut [u16],
    order: &mut [u16],
    levels: &mut [i32],
    drainage: &mut [u32],
    wet: &mut [u8],
)
    requires { Good (ground_of_lists width height heights.now marks.now water.now)
        × Holds (height * width) (six_lists receivers.old basins.old order.old levels.old drainage.old wet.old) }
    ensures { six_lists receivers.new basins.new order.new levels.new drainage.new
        wet.new
        ≡ onto (network_by neighbours manner (ground_of_lists width height heights.now marks.now water.now))
        (six_lists receivers.old basins.old order.old levels.old drainage.old
        wet.old) }
{
    let n = ground::cells(width, height);
    let w = usize::from(width);
    let mut lifted = [0u32; 4096];
    let mut lifted_levels = [0u32; 4096];
    lift_heights(heights, &mut lifted);
    work_out(
        neighbours,
        manner,
        w,
        &lifted[..n],
        marks,
        water,
        receivers,
        basins,
        order,
        &mut lifted_levels,
        drainage,
        wet,
    );
    drop_levels(n, &lifted_levels, levels);
}

// The network of a tile over the neighbours and in the manner asked for. Refusals 1, 2, 3, 4, 5 and 6, in the table's order. A refusal
// leaves every lent list as it was; on acceptance the entries past N stay.
pub fn network_over(
    neighbours: Neighbours,
    manner: Manner,
    width: u16,
    height: u16,
    heights: &[i32],
    marks: &[u8],
    water: &[u16],
    receivers: &mut [u16],
    basins: &mut [u16],
    order: &mut [u16],
    levels: &mut [i32],
    drainage: &mut [u32],
    wet: &mut [u8],
) -> Judged
    ensures { let g = ground_of_lists width height heights.now marks.now water.now in
        let before =
        six_lists receivers.old basins.old order.old levels.old drainage.old
        wet.old in
        let after =
        six_lists receivers.new basins.new order.new levels.new drainage.new
        wet.new in
        OutcomeBy neighbours manner g before result after }
{
    let room = Room {
        each: 1,
        fixed: 0,
        len: shortest_length(receivers, basins, order, levels, drainage, wet),
    };
    let size = ground::judge_lists(width, height, heights, marks, water, room)?;
    fill(
        neighbours, manner, width, height, heights, marks, water, receivers, basins, order, levels,
        drainage, wet,
    );
    Ok(size)
}

// The same with document 01's 4 neighbours, carved.
pub fn network(
    width: u16,
    height: u16,
    heights: &[i32],
    marks: &[u8],
    water: &[u16],
    receivers: &mut [u16],
    basins: &mut [u16],
    order: &mut [u16],
    levels: &mut [i32],
    drainage: &mut [u32],
    wet: &mut [u8],
) -> Judged
    ensures { let g = ground_of_lists width height heights.now marks.now water.now in
        let before =
        six_lists receivers.old basins.old order.old levels.old drainage.old
        wet.old in
        let after =
        six_lists receivers.new basins.new order.new levels.new drainage.new
        wet.new in
        Outcome g before result after }
{
    network_over(
        Neighbours::Four,
        Manner::Carve,
        width,
        height,
        heights,
        marks,
        water,
        receivers,
        basins,
        order,
        levels,
        drainage,
        wet,
    )
}
