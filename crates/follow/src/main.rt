// The program `follow`: reads one question from standard input, a cell, a budget and a list of receivers, and prints where the trace
// ends, or why it is refused. specs/Follow.antt says what is printed for every input, and `answer` promises it of any reader and writer
// whose bytes are known; that the system's streams are such is in no contract.
#![tactic(auto)]

ghost use Rattle.std.specs.Prelude.{◌&&◌, ◌≡◌, ◌≤◌, IfSome, OnOk, leb, length};
ghost use Rattle.std.specs.Io.KnownBytes.{Appends};
ghost use Rattle.follow.specs.Follow.{asked, follow_text, has_list, longest_question, traced_text};
ghost use Rattle.text.specs.Writing.{Printed};
ghost use Rattle.trace.specs.Answer.{answer_of};

use std::io;
use std::io::{Read, Write};
use trace::{TraceEnd, TraceRefusal};

// The line of an answer, and how many bytes it takes: at most 25, for a cell of 16 bits and steps of 32.
fn write_answer(text: &mut [u8], answer: Result<TraceEnd, TraceRefusal>) -> usize
    requires { 25 ≤ length text.old }
    ensures { Printed (traced_text (answer_of answer)) text.old text.new result }
{
    match answer {
        Ok(TraceEnd::Outlet(cell, steps)) => text::write_pair(text, b"outlet ", cell.0, steps),
        Ok(TraceEnd::Stopped(cell, steps)) => text::write_pair(text, b"stopped ", cell.0, steps),
        Err(TraceRefusal::BadList) => text::write_refused(text, 2, 0),
        Err(TraceRefusal::BadCell) => text::write_refused(text, 8, 0),
        Err(TraceRefusal::BadEntry(cell)) => text::write_refused(text, 9, cell.0),
    }
}

// The answer to a question of at most 4,096 receivers.
fn answer_to(bytes: &[u8]) -> Result<TraceEnd, TraceRefusal>
    requires { (8 ≤ length bytes.now) × (length bytes.now ≤ longest_question) }
    ensures { answer_of result ≡ asked bytes.now }
{
    let n = (bytes.len() - 8) / 2;
    let mut receivers = [0u16; 4096];
    sections::read_section(bytes, 8, n, &mut receivers);
    let cell = sections::read::<u32>(bytes, 0);
    let budget = sections::read::<u32>(bytes, 4);
    trace::trace(&receivers[..n], cell, budget)
}

// Whether an input of so many bytes is a question of at most 4,096 receivers.
fn is_question(len: usize) -> bool
    ensures { result ≡ (leb len longest_question && has_list len) }
{
    len <= 8_200 && (8 <= len && len % 2 == 0)
}

// The text for an input, and how many bytes it takes.
fn follow_text(bytes: &[u8], text: &mut [u8]) -> usize
    requires { 25 ≤ length text.old }
    ensures { Printed (follow_text bytes.now) text.old text.new result }
{
    if is_question(bytes.len()) {
        return write_answer(text, answer_to(bytes));
    }
    text::write_refused(text, 2, 0)
}

// Reads an input and writes its text. One byte more than the longest question is read: that an input is too long shows in it, and endless
// input ends. A read or a write that fails is the answer, and then some of the text may be written.
fn answer<R: Read, W: Write>(input: &mut R, output: &mut W) -> io::Result<()>
    ensures { OnOk result (IfSome (R.remaining input.old) (λ s. Appends (W.contents output.old) (W.contents output.new) (follow_text s))) }
{
    inputs::answer::<R, W, _, 8201, 32>(input, output, follow_text)
}

fn main(rt: HostRuntime) -> io::Result<()> {
    answer(&mut rt.stdin(), &mut rt.stdout())
}
