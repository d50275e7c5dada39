// What the programs that read one ground record have in common: the answer to an input, and the text of a refusal.
// specs/RecordText.antt says what such a program prints for every input, over the text that it has for a ground.
#![tactic(auto)]

ghost use Rattle.std.specs.Prelude.{◌≡◌, ◌≤◌, length};
ghost use Rattle.ground.specs.Judge.{refusal_number, refusal_place};
ghost use Rattle.record_text.specs.RecordText.{judge_input};
ghost use Rattle.text.specs.Text.{refused_text};
ghost use Rattle.text.specs.Writing.{Printed};

use ground::{Judged, Refusal};

// The answer to an input: one that is too long for any record is refused before anything in it is judged.
pub fn judge_input(bytes: &[u8]) -> Judged
    ensures { result ≡ judge_input bytes.now }
{
    if 28_688 < bytes.len() {
        return Err(Refusal::BadLength);
    }
    ground::check_record(bytes)
}

// The text of a refusal, and how many bytes it takes.
pub fn write_refusal(text: &mut [u8], why: Refusal) -> usize
    requires { 20 ≤ length text.old }
    ensures { Printed (refused_text (refusal_number why) (refusal_place why)) text.old text.new result }
{
    let answer: Judged = Err(why);
    text::write_refused(text, ground::number(answer), ground::place(answer))
}
