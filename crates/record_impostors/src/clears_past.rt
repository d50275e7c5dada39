// An impostor: the right answer and the right entries, but the entry after the most cells that a tile has is cleared.
ghost use Rattle.std.specs.Prelude.{set};
ghost use Rattle.ground.specs.Record.{ground_of_record};
ghost use Rattle.lists.specs.Allowed.{Allowed};
ghost use Rattle.records.specs.Calls.{left_of, read_judgement, three_lists};

use crate::clear_at;
use ground::Judged;

// The right answer and entries, and one entry too many.
pub fn read_record(bytes: &[u8], heights: &mut [i32], marks: &mut [u8], water: &mut [u16]) -> Judged
    ensures { let before = three_lists heights.old marks.old water.old in
        let after = three_lists heights.new marks.new water.new in
        let said = read_judgement bytes.now before in
        let g = ground_of_record bytes.now in
        Allowed said (λ j. three_lists (left_of j g before).heights (set (left_of j g before).marks 4096 0) (left_of j g before).water) result after }
{
    let judged = records::read_record(bytes, heights, marks, water);
    clear_at(marks, 4096);
    judged
}
