// An impostor: every record is a tile of one cell, and nothing is read.
ghost use Rattle.ground.specs.Judge.{Accepted};
ghost use Rattle.lists.specs.Allowed.{Allowed};
ghost use Rattle.records.specs.Calls.{three_lists};

use ground::{Judged, Size};

// Accepted, whatever is handed over.
pub fn read_record(bytes: &[u8], heights: &mut [i32], marks: &mut [u8], water: &mut [u16]) -> Judged
    ensures { let before = three_lists heights.old marks.old water.old in
        let after = three_lists heights.new marks.new water.new in
        Allowed (Accepted 1 1) (λ _. before) result after }
{
    Ok(Size {
        width: 1,
        height: 1,
    })
}
