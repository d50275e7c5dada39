// The program `drain` (document 01): reads one ground record from standard input and prints its network, or why it is refused.
// specs/Drain.antt says what is printed for every input, and `answer` promises it of any reader and writer whose bytes are known; that the
// system's streams are such is in no contract.
#![tactic(auto)]

ghost use Rattle.std.specs.Prelude.{◌≡◌, ◌*◌, ◌≤◌, IfSome, OnOk, length, take};
ghost use Rattle.std.specs.Io.KnownBytes.{Appends};
ghost use Rattle.drain.specs.Drain.{drain_text};
ghost use Rattle.grid.specs.declared.Neighbours.TheVariants.{Four};
ghost use Rattle.ground.specs.Record.{ground_in};
ghost use Rattle.record_stages.specs.LinkedRecord.{LinkedRecord};
ghost use Rattle.record_stages.specs.Readable.{Readable};
ghost use Rattle.rules.specs.Network.{lifted_network_of};
ghost use Rattle.text.specs.Text.{ground_text};
ghost use Rattle.text.specs.Writing.{most_text, Printed};

use grid::Neighbours;
use ground::Size;
use record_stages::{link_record, walk_record};
use rules::Manner;
use std::io;
use std::io::{Read, Write};

// The text of the ground in a record, from the lists that its network stands at the start of. Work space: 8 KB.
fn print_lists(
    bytes: &[u8],
    size: Size,
    receivers: &[u16],
    levels: &[u32],
    drainage: &[u32],
    text: &mut [u8],
) -> usize
    requires readable { Readable bytes.now size.width size.height }
    requires receivers_value { let network = lifted_network_of (ground_in bytes.now size.width size.height) in
        let n = size.height * size.width in
        (take n receivers.now ≡ network.receivers) × (take n levels.now ≡ network.levels) × (take n drainage.now ≡ network.drainage) }
    requires most_text_in_bounds { most_text ≤ length text.old }
    ensures { Printed (ground_text (ground_in bytes.now size.width size.height)) text.old text.new result }
{
    let n = ground::cells(size.width, size.height);
    let from = 4 * n;
    let to = 5 * n;
    let mut water = [0u16; 4096];
    sections::read_section(bytes, to, n, &mut water);
    text::write_tile(
        text,
        size.width,
        size.height,
        n,
        receivers,
        levels,
        drainage,
        &bytes[from..to],
        &water,
    )
}

// The text of the ground in a record whose cells are linked. Work space: 52 KB, taken only once the cells are linked.
fn print_linked(
    bytes: &[u8],
    size: Size,
    lifted: &[u32],
    links: &mut [u8],
    text: &mut [u8],
) -> usize
    requires readable { Readable bytes.now size.width size.height }
    requires linked_record { LinkedRecord Four bytes.now size.width size.height lifted.now links.old × (length links.old ≡ 4226) }
    requires most_text_in_bounds { most_text ≤ length text.old }
    ensures { Printed (ground_text (ground_in bytes.now size.width size.height)) text.old text.new result }
{
    let mut receivers = [0u16; 4096];
    let mut order = [0u16; 4096];
    let mut levels = [0u32; 4096];
    let mut drainage = [0u32; 4096];
    let mut wet = [0u8; 4096];
    walk_record(
        Neighbours::Four,
        Manner::Carve,
        bytes,
        size,
        lifted,
        links,
        &mut receivers,
        &mut order,
        &mut levels,
        &mut drainage,
        &mut wet,
    );
    print_lists(bytes, size, &receivers, &levels, &drainage, text)
}

// The text of the ground in an accepted record of this size. Work space: 28 KB, and that of linking or of printing.
fn print_tile(bytes: &[u8], size: Size, text: &mut [u8]) -> usize
    requires readable { Readable bytes.now size.width size.height }
    requires most_text_in_bounds { most_text ≤ length text.old }
    ensures { Printed (ground_text (ground_in bytes.now size.width size.height)) text.old text.new result }
{
    let mut lifted = [0u32; 4096];
    let mut basins = [0u16; 4096];
    let mut links = [0u8; 4226];
    link_record(
        Neighbours::Four,
        bytes,
        size,
        &mut lifted,
        &mut basins,
        &mut links,
    );
    print_linked(bytes, size, &lifted, &mut links, text)
}

// The text for an input, and how many bytes it takes.
fn drain_text(bytes: &[u8], text: &mut [u8]) -> usize
    requires { most_text ≤ length text.old }
    ensures { Printed (drain_text bytes.now) text.old text.new result }
{
    match record_text::judge_input(bytes) {
        Ok(size) => print_tile(bytes, size, text),
        Err(why) => record_text::write_refusal(text, why),
    }
}

// Reads an input and writes its text. One byte more than the largest record is read: that an input is too long shows in it, and endless input
// ends. A read or a write that fails is the answer, and then some of the text may be written.
fn answer<R: Read, W: Write>(input: &mut R, output: &mut W) -> io::Result<()>
    ensures { OnOk result (IfSome (R.remaining input.old) (λ s. Appends (W.contents output.old) (W.contents output.new) (drain_text s))) }
{
    inputs::answer::<R, W, _, 28689, 131_072>(input, output, drain_text)
}

fn main(rt: HostRuntime) -> io::Result<()> {
    answer(&mut rt.stdin(), &mut rt.stdout())
}
