// The calls of the service and of designers' tools, for C (include/askvimur_service.h): the lakes of a ground record (W-202), and its network
// over 4 or 8 neighbours (W-203), carved or as a sheet (W-205).
#![tactic(auto)]

ghost use Rattle.std.specs.Prelude.{List, ◌≡◌, ℕ};
ghost use Rattle.askvimur_service.specs.LakesCall.{LakesCalled, LakesCalledFromC, lakes_answer_to, lakes_room, room_left};
ghost use Rattle.ground.specs.Record.{ground_in};
ghost use Rattle.lake_calls.specs.LakeCall.{judge_found};
ghost use Rattle.lake_list.specs.Rows.{found_of};
ghost use Rattle.lake_rules.specs.Lakes.{Lake};
ghost use Rattle.lake_stages.specs.LakesOn.{lakes_on, too_deep_on};
ghost use Rattle.lake_stages.specs.ReadFound.{ReadFound};
ghost use Rattle.lists.specs.Allowed.{Allowed};
ghost use Rattle.network_by.specs.Calls.{RecordCountedFromC};
ghost use Rattle.record_stages.specs.Readable.{Readable};

use ground::Size;
use lake_bytes::write_lakes;
use lake_calls::{LakesAnswer, judge_found, lakes_number, lakes_place};
use lake_list::{NO_ROW, Row, TooDeep};
use lake_stages::record_lakes;
use network_by::network_of_record;

// The answer to what was found; the lakes' bytes are written where that lists them.
fn write_found(found: Result<u16, TooDeep>, rows: &[Row], lakes: &mut [u8]) -> LakesAnswer
    requires { (deep : List (List ℕ)) × (ls : List Lake) × ReadFound deep ls found rows.now }
    ensures { (deep : List (List ℕ)) → (ls : List Lake) → ReadFound deep ls found rows.now
        → Allowed (judge_found (found_of deep ls) (lakes_room lakes.old)) (λ r. room_left r ls lakes.old) result lakes.new }
{
    let count = judge_found(found, lakes.len() / 16)?;
    write_lakes(lakes, rows, count as usize);
    Ok(count)
}

// The lakes of an accepted ground record of this size. Work space: 64 KB, and that of finding lakes.
fn list_accepted(ground: &[u8], size: Size, lakes: &mut [u8]) -> LakesAnswer
    requires { Readable ground.now size.width size.height }
    ensures { let g = ground_in ground.now size.width size.height in
        Allowed (judge_found (found_of (too_deep_on g) (lakes_on g)) (lakes_room lakes.old)) (λ r. room_left r (lakes_on g) lakes.old)
        result lakes.new }
{
    let mut rows = [NO_ROW; 4096];
    let found = record_lakes(ground, size, &mut rows);
    write_found(found, &rows, lakes)
}

// The lakes of a ground record, 16 bytes for each, at the start of a lent room, each lake after all the lakes inside it. All that judge
// the ground come first, then 10, and then 3. A refusal alters nothing, and bytes past the last lake stay.
pub fn lakes_of_record(ground: &[u8], lakes: &mut [u8]) -> LakesAnswer
    ensures { LakesCalled ground.now lakes.old result lakes.new }
{
    let size = ground::check_record(ground)?;
    list_accepted(ground, size, lakes)
}

// The answer for C: how many lakes, or the refusal's number times 65,536 plus its place.
fn answer_for_c(answer: LakesAnswer) -> u32
    ensures { result ≡ lakes_answer_to answer }
{
    match answer {
        Ok(count) => u32::from(count),
        Err(_) => u32::from(lakes_number(answer)) * 65536 + u32::from(lakes_place(answer)),
    }
}

// The same for C.
#[unsafe(no_mangle)]
pub extern "C" fn askvimur_lakes(ground: &[u8], lakes: &mut [u8]) -> u32
    ensures { LakesCalledFromC ground.now lakes.old result lakes.new }
{
    answer_for_c(lakes_of_record(ground, lakes))
}

// The network record of a ground record over the neighbours and in the manner asked for, at the start of a lent room. The answer is the
// length written, 43 to 61,468, or for a refusal its number times 65,536 plus its place; 11, a count other than 4 or 8, comes before all
// others, and next 12, a manner other than 1 (carve) or 2 (sheet). A refusal alters nothing, and bytes past the record stay.
#[unsafe(no_mangle)]
pub extern "C" fn askvimur_network_by(
    neighbours: u32,
    manner: u32,
    ground: &[u8],
    network: &mut [u8],
) -> u32
    ensures { RecordCountedFromC neighbours manner ground.now network.old result network.new }
{
    network_by::answer_for_c(network_of_record(neighbours, manner, ground, network))
}
