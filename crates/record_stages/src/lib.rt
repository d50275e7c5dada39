// The network of an accepted ground record, in lists: what the record call writes out and what drain prints. Two calls, one after
// the other, so that no list that only the second fills takes space while the first works.
// Heights are lifted as they are read, and marks and water are looked at where they stand in the record.
#![tactic(auto)]

ghost use Rattle.std.specs.Prelude.{◌≡◌, ◌*◌, ◌≤◌, length};
ghost use Rattle.lists.specs.Lists.{filled};
ghost use Rattle.record_stages.specs.Lifted.{InRangeAt, lifted_at};
ghost use Rattle.record_stages.specs.LinkedRecord.{LinkedRecord, RecordLinked};
ghost use Rattle.record_stages.specs.Readable.{Readable};
ghost use Rattle.record_stages.specs.WalkedRecord.{RecordWalked};
ghost use Rattle.walk.specs.Walk.{lent, LentHolds};

use drainage::drain_section;
use grid::Neighbours;
use ground::Size;
use manners::walk_by;
use rules::Manner;
use stages::link_cells;

// The first n heights of a record, lifted, at the start of a lent list.
pub fn lift_record(bytes: &[u8], n: usize, out: &mut [u32])
    requires { (4 * n ≤ length bytes.now) × (n ≤ length out.old) × InRangeAt bytes.now n }
    ensures { out.new ≡ filled (lifted_at bytes.now) n out.old }
{
    for k in 0..n {
        out[k] = heights::lift_bits(sections::read::<u32>(bytes, 4 * k));
    }
}

// The heights of the ground in a record of this size, lifted, its basins, and the links of its network. Work space: that
// of the stages.
pub fn link_record(
    neighbours: Neighbours,
    bytes: &[u8],
    size: Size,
    lifted: &mut [u32],
    basins: &mut [u16],
    links: &mut [u8],
)
    requires readable { Readable bytes.now size.width size.height }
    requires width_in_bounds { (size.height * size.width ≤ length lifted.old) × (size.height * size.width ≤ length basins.old) × (length links.old ≡ 4226) }
    ensures { RecordLinked neighbours bytes.now size.width size.height basins.old lifted.new basins.new links.new }
{
    let n = ground::cells(size.width, size.height);
    let w = size.width as usize;
    let from = 4 * n;
    let to = 5 * n;
    lift_record(bytes, n, lifted);
    link_cells(neighbours, w, &lifted[..n], &bytes[from..to], basins, links);
}

// The network of a record whose cells are linked, in the manner asked for, levels lifted, but for its basins. The list that drainage is to
// stand in is the walk's work space, and so are the links, once they are walked.
pub fn walk_record(
    neighbours: Neighbours,
    manner: Manner,
    bytes: &[u8],
    size: Size,
    lifted: &[u32],
    links: &mut [u8],
    receivers: &mut [u16],
    order: &mut [u16],
    levels: &mut [u32],
    drainage: &mut [u32],
    wet: &mut [u8],
)
    requires readable { Readable bytes.now size.width size.height }
    requires linked_record { LinkedRecord neighbours bytes.now size.width size.height lifted.now links.old × (length links.old ≡ 4226) }
    requires lent_holds { LentHolds (size.height * size.width) (lent drainage.old order.old receivers.old levels.old wet.old) }
    ensures { let before = lent drainage.old order.old receivers.old levels.old wet.old in
        let after = lent drainage.new order.new receivers.new levels.new wet.new in
        RecordWalked neighbours manner bytes.now size.width size.height before after }
{
    let n = ground::cells(size.width, size.height);
    let w = size.width as usize;
    let from = 4 * n;
    let to = 5 * n;
    walk_by(
        neighbours,
        manner,
        w,
        &lifted[..n],
        &bytes[from..to],
        links,
        drainage,
        order,
        receivers,
        levels,
        wet,
    );
    drain_section(bytes, to, n, order, receivers, drainage);
}
