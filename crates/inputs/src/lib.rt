// Reading an input up to a bound, so that an endless input ends too; and answering an input with a text that is made of what was read.
#![tactic(auto)]

ghost use Rattle.std.specs.Prelude.{◌≡◌, ◌<◌, ◌≤◌, ◌^◌, ℕ, IfOk, IfSome, length, List, OnOk, take};
ghost use Rattle.std.specs.Io.{ReadsAtMost};
ghost use Rattle.std.specs.Io.KnownBytes.{Appends};

use std::io;
use std::io::{Read, Write};

// Reads until the room is full or the input ends, and answers how many bytes stand at the start of the room: the input's first bytes, as
// many as there is room for.
pub fn read_full<R: Read>(input: &mut R, room: &mut [u8]) -> io::Result<usize>
    ensures within { ReadsAtMost result room.new }
    ensures bytes { IfOk result (λ n. IfSome (R.remaining input.old) (λ s. take n room.new ≡ take (length room.old) s)) }
{
    let mut done = 0;
    while done < room.len() {
        let got = input.read(&mut room[done..])?;
        if got == 0 {
            break;
        }
        done += got;
    }
    Ok(done)
}

// Reads an input, lets `make` write a text of it into a room of zeros and give the text's length, and writes the text. At most MOST bytes are
// read, so that endless input ends. A read or a write that fails is the answer, and then some of the text may be written.
pub fn answer<
    R: Read,
    W: Write,
    F: FnOnce(&[u8], &mut [u8]) -> usize,
    const MOST: usize,
    const ROOM: usize,
>(input: &mut R, output: &mut W, make: F) -> io::Result<()>
    requires sizes { (MOST < 2 ^ 63) × (ROOM < 2 ^ 63) }
    requires callable { (bytes text : _) → length text.now ≡ ROOM → F.pre make bytes text }
    requires fits { (bytes text : _) → length text.now ≡ ROOM → (n : ℕ) (left : _) → F.post make bytes text n left → n ≤ ROOM }
    ensures { (text_of : List ℕ → List ℕ) → ((s : List ℕ) → text_of (take MOST s) ≡ text_of s)
        → ((bytes text : _) (n : ℕ) (left : _) → F.post make bytes text n left → take n left.now ≡ text_of bytes.now)
        → OnOk result (IfSome (R.remaining input.old) (λ s. Appends (W.contents output.old) (W.contents output.new) (text_of s))) }
{
    let mut bytes = [0u8; MOST];
    let mut text = [0u8; ROOM];
    let got = read_full(input, &mut bytes)?;
    let len = make(&bytes[..got], &mut text);
    output.write_all(&text[..len])
}

#[cfg(test)]
mod tests;
