// Impostors of the reader of ground records. `read` promises what `records::read_record` promises, and hands on to it. Each must-fail
// edit puts an impostor in its place: each impostor is safe and keeps a promise of its own, and the promise of `read` shuts it out.
#![tactic(auto)]

ghost use Rattle.std.specs.Prelude.{◌≡◌, set};
ghost use Rattle.records.specs.Calls.{Read, three_lists};

use ground::Judged;

mod accepts_everything; // accepts_everything.rt: every record is a good one
mod clears_past; // clears_past.rt: clears an entry past the last one filled
mod refuses_everything; // refuses_everything.rt: every record is refused, with the right numbers for some
mod writes_first; // writes_first.rt: writes an entry before the record is judged

// The entry at `at` set to 0, where there is one: what two of the impostors do.
fn clear_at(marks: &mut [u8], at: usize)
    ensures { marks.new ≡ set marks.old at 0 }
{
    if at < marks.len() {
        marks[at] = 0;
    }
}

// Reads a ground record.
pub fn read(bytes: &[u8], heights: &mut [i32], marks: &mut [u8], water: &mut [u16]) -> Judged
    ensures { let before = three_lists heights.old marks.old water.old in
        let after = three_lists heights.new marks.new water.new in
        Read bytes.now before result after }
{
    records::read_record(bytes, heights, marks, water)
}
