// The program `lakes` (document 02, W-202): reads one ground record from standard input and prints its lakes, or why it is refused.
// specs/Program.antt says what is printed for every input, and `answer` promises it of any reader and writer whose bytes are known; that the
// system's streams are such is in no contract.
#![tactic(auto)]

ghost use Rattle.std.specs.Prelude.{◌≤◌, IfSome, OnOk, length};
ghost use Rattle.std.specs.Io.KnownBytes.{Appends};
ghost use Rattle.ground.specs.Record.{ground_in};
ghost use Rattle.lake_text.specs.LakeText.{most_lakes_text};
ghost use Rattle.lakes.specs.Program.{ground_lakes_text, lakes_program_text};
ghost use Rattle.record_stages.specs.Readable.{Readable};
ghost use Rattle.text.specs.Writing.{Printed};

use ground::Size;
use lake_list::{NO_ROW, TooDeep};
use std::io;
use std::io::{Read, Write};

// The text of the lakes of the ground in an accepted record of this size. Work space: 64 KB, and that of listing the lakes.
fn print_lakes(bytes: &[u8], size: Size, text: &mut [u8]) -> usize
    requires readable { Readable bytes.now size.width size.height }
    requires most_lakes_text_in_bounds { most_lakes_text ≤ length text.old }
    ensures { Printed (ground_lakes_text (ground_in bytes.now size.width size.height)) text.old text.new result }
{
    let mut rows = [NO_ROW; 4096];
    let found = lake_stages::record_lakes(bytes, size, &mut rows);
    match found {
        Ok(count) => lake_text::write_lakes(text, count as usize, &rows),
        Err(TooDeep(cell)) => text::write_refused(text, 10, cell.0),
    }
}

// The text for an input, and how many bytes it takes.
fn lakes_text(bytes: &[u8], text: &mut [u8]) -> usize
    requires { most_lakes_text ≤ length text.old }
    ensures { Printed (lakes_program_text bytes.now) text.old text.new result }
{
    match record_text::judge_input(bytes) {
        Ok(size) => print_lakes(bytes, size, text),
        Err(why) => record_text::write_refusal(text, why),
    }
}

// Reads an input and writes its text. One byte more than the largest record is read: that an input is too long shows in it, and endless input
// ends. A read or a write that fails is the answer, and then some of the text may be written.
fn answer<R: Read, W: Write>(input: &mut R, output: &mut W) -> io::Result<()>
    ensures { OnOk result (IfSome (R.remaining input.old) (λ s. Appends (W.contents output.old) (W.contents output.new) (lakes_program_text s))) }
{
    inputs::answer::<R, W, _, 28689, 131_072>(input, output, lakes_text)
}

fn main(rt: HostRuntime) -> io::Result<()> {
    answer(&mut rt.stdin(), &mut rt.stdout())
}
