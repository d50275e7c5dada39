// What the contracts leave open, a read that fails, and one call on bytes of each kind: fewer than there is room for, and more. And a text
// that is made of what was read.
ghost use Rattle.std.specs.Prelude.{◌≡◌, ◌≤◌, length};

use crate::{answer, read_full};
use std::io;
use std::io::Read;

// It gives two bytes, one at a time, and then fails.
#[derive(Drop)]
struct Failing {
    given: u8,
}

impl Read for Failing {
    fn read(&mut self, buf: &mut [u8]) -> io::Result<usize> {
        if buf.is_empty() {
            return Ok(0);
        }
        if 2 <= self.given {
            return Err(io::Error::from(io::ErrorKind::TimedOut));
        }
        self.given += 1;
        buf[0] = self.given;
        Ok(1)
    }
}

#[test]
fn reads_what_there_is(rt: HostRuntime) -> io::Result<()> {
    let mut room = [9u8; 4];
    let mut input: &[u8] = b"abc";
    let got = read_full(&mut input, &mut room)?;
    assert_eq!(rt; got, 3);
    assert!(rt; room == *b"abc\t");
    Ok(())
}

#[test]
fn reads_what_there_is_room_for(rt: HostRuntime) -> io::Result<()> {
    let mut room = [0u8; 2];
    let mut input: &[u8] = b"abc";
    let got = read_full(&mut input, &mut room)?;
    assert_eq!(rt; got, 2);
    assert!(rt; room == *b"ab");
    Ok(())
}

#[test]
fn a_read_that_fails_is_the_answer(rt: HostRuntime) {
    let mut room = [0u8; 4];
    let mut input = Failing { given: 0 };
    let answer = read_full(&mut input, &mut room);
    assert!(rt; answer.is_err());
    let mut short = [0u8; 2];
    let mut again = Failing { given: 0 };
    let whole = read_full(&mut again, &mut short);
    assert!(rt; whole.is_ok());
    assert!(rt; short == [1, 2]);
}

// The first byte that was read, or a point where there is none.
fn first_byte(bytes: &[u8], text: &mut [u8]) -> usize
    requires { 1 ≤ length text.old }
    ensures { result ≡ 1 }
{
    text[0] = if bytes.is_empty() { b'.' } else { bytes[0] };
    1
}

#[test]
fn the_text_of_what_was_read_is_written(rt: HostRuntime) -> io::Result<()> {
    let mut room = [b' '; 3];
    let mut output: &mut [u8] = &mut room;
    let mut input: &[u8] = b"abc";
    answer::<_, _, _, 2, 4>(&mut input, &mut output, first_byte)?;
    assert_eq!(rt; input.len(), 1);
    let mut nothing: &[u8] = b"";
    answer::<_, _, _, 2, 4>(&mut nothing, &mut output, first_byte)?;
    assert!(rt; room == *b"a. ");
    Ok(())
}

#[test]
fn a_read_that_fails_leaves_nothing_written(rt: HostRuntime) {
    let mut room = [b' '; 2];
    let mut output: &mut [u8] = &mut room;
    let mut input = Failing { given: 0 };
    let given = answer::<_, _, _, 4, 4>(&mut input, &mut output, first_byte);
    assert!(rt; given.is_err());
    assert!(rt; room == *b"  ");
}
