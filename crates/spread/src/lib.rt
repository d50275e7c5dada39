// The fewest steps from each cell to a marked one, through neighbours that a mask names: cells are taken out of a queue in the order in
// which they entered it, and each offers a count one more than its own to the places around it. No branch depends on the ground.
#![tactic(auto)]

ghost use Rattle.std.specs.Prelude.{Bool, cond, not, ◌&&◌, ◌≡◌, ℕ, ◌+◌, ◌<◌, ◌≤◌, eqb, length};
ghost use Rattle.lists.specs.Stores.{Packs};
ghost use Rattle.spread.specs.Spread.{Spreadable, SpreadOut};
ghost use Rattle.spread.specs.Steps.{none};
ghost use Rattle.spread.specs.Wave.{beginnings, both_offered, offered, offered_by, offers, RoomPast, wave};

use grid::Neighbours;
use kinds::Place;

// So many entries stand before and after the counts, so that every cell has eight places around it.
const MARGIN: usize = 65;

// The count of a cell that no way leads from, and of one that none was found from yet.
// Stays: a number and no Option, since `spread` promises it to its callers (`none`), and a list of Options is twice as long.
const NONE: u16 = 65_535;

// The bit, where nothing is counted yet.
fn taken(bit: u8, old: u16) -> u8
    ensures { (result ≡ cond (eqb old none) bit 0) × (result ≤ bit) }
{
    if old == NONE { bit } else { 0 }
}

// The new count where it is taken.
fn counted(takes: u8, count: u16, old: u16) -> u16
    ensures { result ≡ cond (eqb takes 1) count old }
{
    if takes == 1 { count } else { old }
}

// Offers a count to a place. The place is written past the queue's tail, and the tail moves where the count is taken: what isn't taken is
// overwritten by the next.
fn offer(
    counts: &mut [u16],
    queue: &mut [u16],
    tail: Place,
    place: usize,
    bit: u8,
    count: u16,
) -> Place
    requires { (place < length counts.old) × (place < 65536) × (tail.0 < length queue.old) × (tail.0 < 65535) × (bit ≤ 1) }
    ensures { wave counts.new queue.new result.0
        ≡ offered bit count place (wave counts.old queue.old tail.0) }
{
    let old = counts[place];
    let takes = taken(bit, old);
    counts[place] = counted(takes, count, old);
    queue[tail.0 as usize] = place as u16;
    Place(tail.0 + takes as u16)
}

// Offers a count to the places so many before the one here and after it; their bits are the lowest of `back` and of `on`.
fn offer_both(
    counts: &mut [u16],
    queue: &mut [u16],
    tail: Place,
    here: usize,
    step: usize,
    back: u8,
    on: u8,
    count: u16,
) -> Place
    requires step_le_here { (step ≤ here) × (here < 4161) × (step ≤ 65) × (here + step < length counts.old) }
    requires room_past { RoomPast (both_offered back on count here step (wave counts.old queue.old tail.0)) queue.old }
    ensures { wave counts.new queue.new result.0
        ≡ both_offered back on count here step (wave counts.old queue.old tail.0) }
{
    let tail = offer(counts, queue, tail, here - step, back % 2, count);
    offer(counts, queue, tail, here + step, on % 2, count)
}

// Offers a count to all places around the one here that a neighbour may stand at, above and below, to the left and to the right, and then
// at the corners.
fn visit(
    neighbours: Neighbours,
    w: usize,
    counts: &mut [u16],
    queue: &mut [u16],
    tail: Place,
    here: usize,
    mask: u8,
    count: u16,
) -> Place
    requires w_nonzero { (0 < w) × (w ≤ 64) × (65 ≤ here) × (here < 4161) × (here + w + 1 < length counts.old) }
    requires room_past { RoomPast (offers w here mask count (offered_by neighbours) (wave counts.old queue.old tail.0)) queue.old }
    ensures { wave counts.new queue.new result.0
        ≡ offers w here mask count (offered_by neighbours) (wave counts.old queue.old tail.0) }
{
    let tail = offer_both(counts, queue, tail, here, w, mask / 2, mask / 64, count);
    let tail = offer_both(counts, queue, tail, here, 1, mask / 8, mask / 16, count);
    match neighbours {
        Neighbours::Four => tail,
        Neighbours::Eight => {
            let tail = offer_both(counts, queue, tail, here, w - 1, mask / 4, mask / 32, count);
            offer_both(counts, queue, tail, here, w + 1, mask, mask / 128, count)
        }
    }
}

// Whether to begin with a cell: it is marked and has a neighbour to go on to. On most tiles nearly all marked cells have none.
fn is_start(count: u16, mask: u8) -> bool
    ensures { result ≡ (eqb count 0 && not (eqb mask 0)) }
{
    count == 0 && mask != 0
}

// Puts the places of the cells to begin with into the queue, by ascending number.
fn gather(masks: &[u8], counts: &[u16], queue: &mut [u16]) -> Place
    requires { (length masks.now ≤ 4096) × (length masks.now + 130 ≤ length counts.now) × (length masks.now < length queue.old) }
    ensures { Packs (beginnings masks.now counts.now (length masks.now)) queue.new result.0 }
{
    // Between turns the places of those before cell c stand in the queue.
    let mut tail = Place(0);
    for c in 0..masks.len() {
        queue[tail.0 as usize] = (c + MARGIN) as u16;
        tail = Place(tail.0 + u16::from(is_start(counts[c + MARGIN], masks[c])));
    }
    tail
}

// Takes one place after the other out of the queue and visits it, until none is left.
fn flood(
    neighbours: Neighbours,
    w: usize,
    masks: &[u8],
    counts: &mut [u16],
    queue: &mut [u16],
    starts: Place,
)
    requires by_index { (E : ℕ → ℕ → Bool) × Spreadable neighbours w E masks.now counts.old queue.old }
    requires packs { Packs (beginnings masks.now counts.old (length masks.now)) queue.old starts.0 }
    ensures { SpreadOut neighbours w masks.now counts.old queue.old counts.new }
{
    // Between turns each counted cell has a way of so many steps, and stands in the queue or has no neighbour to go on to. Counts ascend
    // along the queue, and what still waits in it is at most one less than its last. What may step to a cell that was taken out is
    // counted, with at most one more.
    let mut head = Place(0);
    let mut tail = starts;
    while head.0 < tail.0 {
        let here = queue[head.0 as usize] as usize;
        let mask = masks[here - MARGIN];
        let count = counts[here] + 1;
        tail = visit(neighbours, w, counts, queue, tail, here, mask, count);
        head = Place(head.0 + 1);
    }
}

// Counts the fewest steps from each cell to a marked one, through the neighbours that its mask names; 65,535 where no way leads to one.
// Counts come in as 0 at marked cells and 65,535 elsewhere. The queue is work space.
pub fn spread(neighbours: Neighbours, w: usize, masks: &[u8], counts: &mut [u16], queue: &mut [u16])
    requires { (E : ℕ → ℕ → Bool) × Spreadable neighbours w E masks.now counts.old queue.old }
    ensures { SpreadOut neighbours w masks.now counts.old queue.old counts.new }
{
    let starts = gather(masks, counts, queue);
    flood(neighbours, w, masks, counts, queue, starts);
}
