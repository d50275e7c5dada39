// An impostor: every record is refused with 2, place 0, which is right for a record of 15 bytes.
ghost use Rattle.ground.specs.Judge.{Refused};
ghost use Rattle.lists.specs.Allowed.{Allowed};
ghost use Rattle.records.specs.Calls.{three_lists};
ghost use Rattle.ground.specs.declared.Refusal.TheVariants.{BadLength};

use ground::{Judged, Refusal};

// Refused, whatever is handed over.
pub fn read_record(bytes: &[u8], heights: &mut [i32], marks: &mut [u8], water: &mut [u16]) -> Judged
    ensures { let before = three_lists heights.old marks.old water.old in
        let after = three_lists heights.new marks.new water.new in
        Allowed (Refused BadLength) (λ _. before) result after }
{
    Err(Refusal::BadLength)
}
