// Ground records read into lists and written from them (document 01, "Records"). Each call judges its input first, in the order of
// document 01's table: a refusal changes nothing, and what is past the last entry or byte filled stays as it was.
#![tactic(auto)]

ghost use Rattle.std.specs.Prelude.{◌≡◌, ◌*◌, ◌+◌, ◌≤◌, length};
ghost use Rattle.lists.specs.Lists.{overwrite, stored, stretch};
ghost use Rattle.sections.specs.LittleEndian.{numbers_at};
ghost use Rattle.heights.specs.Bits.{heights_at};
ghost use Rattle.ground.specs.Good.{Good};
ghost use Rattle.ground.specs.Record.{ground_of_lists, record_of, trailer};
ghost use Rattle.records.specs.Calls.{Read, three_lists, Written};

use ground::{Judged, Room};

// The three lists of a record of n cells.
fn read_cells(bytes: &[u8], n: usize, heights: &mut [i32], marks: &mut [u8], water: &mut [u16])
    requires { (length bytes.now ≡ 7 * n + 16)
        × (n ≤ length heights.old) × (n ≤ length marks.old) × (n ≤ length water.old) }
    ensures heights_after { heights.new ≡ overwrite (heights_at bytes.now 0 n) heights.old }
    ensures marks_after { marks.new ≡ overwrite (stretch (4 * n) n bytes.now) marks.old }
    ensures water_after { water.new ≡ overwrite (numbers_at 2 bytes.now (5 * n) n) water.old }
{
    sections::read_section(bytes, 0, n, heights);
    sections::read_section(bytes, 4 * n, n, marks);
    sections::read_section(bytes, 5 * n, n, water);
}

// A ground record into lent lists of heights, marks and water, each of at least N entries.
pub fn read_record(bytes: &[u8], heights: &mut [i32], marks: &mut [u8], water: &mut [u16]) -> Judged
    ensures { let before = three_lists heights.old marks.old water.old in
        let after = three_lists heights.new marks.new water.new in
        Read bytes.now before result after }
{
    let room = Room {
        each: 1,
        fixed: 0,
        len: heights.len().min(marks.len().min(water.len())),
    };
    let size = ground::judge_record(bytes, room)?;
    read_cells(
        bytes,
        ground::cells(size.width, size.height),
        heights,
        marks,
        water,
    );
    Ok(size)
}

// The trailer of a ground record into a part of 16 bytes.
fn fill_trailer(part: &mut [u8], width: u16, height: u16)
    requires { (length part.old ≡ 16) × (width ≤ 64) × (height ≤ 64) }
    ensures { part.new ≡ trailer width height }
{
    let n = ground::cells(width, height) as u32;
    sections::write(part, 0, width);
    sections::write(part, 2, height);
    sections::write(part, 4, 7 * n);
    sections::write(part, 8, 3 * n);
    sections::write(part, 12, 2 * n);
}

// The trailer into the record from index `from` on.
fn write_trailer(bytes: &mut [u8], from: usize, width: u16, height: u16)
    requires { (from + 16 ≤ length bytes.old) × (width ≤ 64) × (height ≤ 64) }
    ensures { bytes.new ≡ stored from (trailer width height) bytes.old }
{
    let to = from + 16;
    fill_trailer(&mut bytes[from..to], width, height);
}

// The four sections of a good ground, each into its own stretch of the record.
fn write_sections(
    width: u16,
    height: u16,
    heights: &[i32],
    marks: &[u8],
    water: &[u16],
    bytes: &mut [u8],
)
    requires { Good (ground_of_lists width height heights.now marks.now water.now)
        × (7 * (height * width) + 16 ≤ length bytes.old) }
    ensures { let g = ground_of_lists width height heights.now marks.now water.now in
        bytes.new ≡ overwrite (record_of g) bytes.old }
{
    let n = ground::cells(width, height);
    sections::write_section(bytes, 0, heights);
    sections::write_section(bytes, 4 * n, marks);
    sections::write_section(bytes, 5 * n, water);
    write_trailer(bytes, 7 * n, width, height);
}

// Lists of heights, marks and water, of N entries each, into a lent record of at least 7N + 16 bytes.
pub fn write_record(
    width: u16,
    height: u16,
    heights: &[i32],
    marks: &[u8],
    water: &[u16],
    bytes: &mut [u8],
) -> Judged
    ensures { let g = ground_of_lists width height heights.now marks.now water.now in
        Written g bytes.old result bytes.new }
{
    let room = Room {
        each: 7,
        fixed: 16,
        len: bytes.len(),
    };
    let size = ground::judge_lists(width, height, heights, marks, water, room)?;
    write_sections(width, height, heights, marks, water, bytes);
    Ok(size)
}
