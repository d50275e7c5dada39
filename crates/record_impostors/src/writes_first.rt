// An impostor: the right answer, but the first mark has been written before the record is judged.
ghost use Rattle.std.specs.Prelude.{set};
ghost use Rattle.records.specs.Calls.{Read, three_lists};

use crate::clear_at;
use ground::Judged;

// The right answer, and an entry written before it was known.
pub fn read_record(bytes: &[u8], heights: &mut [i32], marks: &mut [u8], water: &mut [u16]) -> Judged
    ensures { let cleared = three_lists heights.old (set marks.old 0 0) water.old in
        let after = three_lists heights.new marks.new water.new in
        Read bytes.now cleared result after }
{
    clear_at(marks, 0);
    records::read_record(bytes, heights, marks, water)
}
