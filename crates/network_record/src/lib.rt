// The record call over four neighbours or eight, carved or as a sheet: from a ground record to its network record, and its answer as one
// number. The calls for C rest on it; it has no symbol of its own.
#![tactic(auto)]

ghost use Rattle.std.specs.Prelude.{◌≡◌, ◌*◌, ◌+◌, ◌≤◌, length, take};
ghost use Rattle.ground.specs.Judge.{number_of, place_of};
ghost use Rattle.ground.specs.Record.{ground_in};
ghost use Rattle.lists.specs.Lists.{overwrite};
ghost use Rattle.network_bytes.specs.NetworkRecord.{network_bytes};
ghost use Rattle.network_record.specs.ReadAnswer.{length_of};
ghost use Rattle.network_record.specs.RecordCall.{answer_to, CalledBy, network_record_by};
ghost use Rattle.record_stages.specs.LinkedRecord.{LinkedRecord};
ghost use Rattle.record_stages.specs.Readable.{Readable};
ghost use Rattle.rules.specs.Network.{lifted_network_by};

use grid::Neighbours;
use ground::{Judged, Room, Size};
use network_bytes::write_network;
use record_stages::{link_record, walk_record};
use rules::Manner;

// The network record of a ground record whose cells are linked. Work space: 52 KB, taken only once the cells are linked, and that of a sheet;
// the links are work space too.
fn write_linked(
    neighbours: Neighbours,
    manner: Manner,
    bytes: &[u8],
    size: Size,
    lifted: &[u32],
    basins: &[u16],
    links: &mut [u8],
    network: &mut [u8],
)
    requires readable { Readable bytes.now size.width size.height }
    requires linked_record { LinkedRecord neighbours bytes.now size.width size.height lifted.now links.old × (length links.old ≡ 4226) }
    requires basins_value { take (size.height * size.width) basins.now
        ≡ (lifted_network_by neighbours manner (ground_in bytes.now size.width size.height)).basins }
    requires width_in_bounds { network_bytes (size.height * size.width) ≤ length network.old }
    ensures { network.new
        ≡ overwrite (network_record_by neighbours manner (ground_in bytes.now size.width size.height)) network.old }
{
    let mut receivers = [0u16; 4096];
    let mut order = [0u16; 4096];
    let mut levels = [0u32; 4096];
    let mut drainage = [0u32; 4096];
    let mut wet = [0u8; 4096];
    walk_record(
        neighbours,
        manner,
        bytes,
        size,
        lifted,
        links,
        &mut receivers,
        &mut order,
        &mut levels,
        &mut drainage,
        &mut wet,
    );
    write_network(
        size.width,
        size.height,
        &receivers,
        basins,
        &order,
        &levels,
        &drainage,
        &wet,
        network,
    );
}

// The network record of an accepted ground record. Work space: 28 KB, and that of linking or of writing.
fn write_accepted(
    neighbours: Neighbours,
    manner: Manner,
    bytes: &[u8],
    size: Size,
    network: &mut [u8],
)
    requires readable { Readable bytes.now size.width size.height }
    requires width_in_bounds { network_bytes (size.height * size.width) ≤ length network.old }
    ensures { network.new
        ≡ overwrite (network_record_by neighbours manner (ground_in bytes.now size.width size.height)) network.old }
{
    let mut lifted = [0u32; 4096];
    let mut basins = [0u16; 4096];
    let mut links = [0u8; 4226];
    link_record(
        neighbours,
        bytes,
        size,
        &mut lifted,
        &mut basins,
        &mut links,
    );
    write_linked(
        neighbours, manner, bytes, size, &lifted, &basins, &mut links, network,
    );
}

// The network record of a ground record, at the start of a lent one. A refusal alters nothing, and bytes past the record stay.
pub fn record_over(
    neighbours: Neighbours,
    manner: Manner,
    ground: &[u8],
    network: &mut [u8],
) -> Judged
    ensures { CalledBy neighbours manner ground.now network.old result network.new }
{
    let room = Room {
        each: 15,
        fixed: 28,
        len: network.len(),
    };
    let size = ground::judge_record(ground, room)?;
    write_accepted(neighbours, manner, ground, size, network);
    Ok(size)
}

// The answer to a refused record: the number times 65,536, plus the place.
fn refusal_answer(judged: Judged) -> u32
    ensures { result ≡ number_of judged * 65536 + place_of judged }
{
    let number = ground::number(judged);
    let place = ground::place(judged);
    u32::from(number) * 65536 + u32::from(place)
}

// The answer to an accepted one: the length of its network record.
fn length_answer(size: Size) -> u32
    requires { size.height * size.width ≤ 4096 }
    ensures { result ≡ network_bytes (size.height * size.width) }
{
    (15 * ground::cells(size.width, size.height) + 28) as u32
}

// The answer as one number, for C: the length written, 43 to 61,468, or for a refused record its number times 65,536 plus its place.
pub fn answer_for_c(judged: Judged) -> u32
    requires { length_of judged ≤ 61468 }
    ensures { result ≡ answer_to judged }
{
    match judged {
        Ok(size) => length_answer(size),
        Err(_) => refusal_answer(judged),
    }
}
