// Document 01's limits and their like on the other side, one line each: what was tried, then the number and the place given back. Then
// sample F both ways, the traces T1 to T5 and the largest budget. All run through the public calls; the file stdout has what they print.
#![tactic(auto)]

ghost use Rattle.std.specs.Prelude.{◌≤◌};

use ground::Judged;
use std::io;
use trace::{TraceEnd, TraceRefusal};

// A word and two numbers on a line.
fn line(rt: &impl Print, word: &str, first: u32, second: u32) -> io::Result<()> {
    println!(rt; "{word}{first} {second}")
}

// One line: a word, and the number and the place of an answer.
fn say(rt: &impl Print, word: &str, judged: Judged) -> io::Result<()> {
    line(
        rt,
        word,
        u32::from(ground::number(judged)),
        u32::from(ground::place(judged)),
    )
}

// One cell of this height, an outlet.
fn cell(rt: &impl Print, word: &str, height: i32) -> io::Result<()> {
    let heights = [height];
    say(rt, word, ground::check_lists(1, 1, &heights, &[1], &[0]))
}

// Level ground of N cells, all outlets, with all the water that there can be.
fn level_ground<const N: usize>(
    rt: &impl Print,
    word: &str,
    width: u16,
    height: u16,
) -> io::Result<()>
    requires { N ≤ 65 }
{
    say(
        rt,
        word,
        ground::check_lists(width, height, &[0i32; N], &[1u8; N], &[65535u16; N]),
    )
}

// The ends of the range of heights.
fn heights(rt: &impl Print) -> io::Result<()> {
    cell(rt, "height 8000000: ", 8_000_000)?;
    cell(rt, "height 8000001: ", 8_000_001)?;
    cell(rt, "height -8000000: ", -8_000_000)?;
    cell(rt, "height -8000001: ", -8_000_001)
}

// The ends of 32 bits.
fn extremes(rt: &impl Print) -> io::Result<()> {
    cell(rt, "height 2147483647: ", 2_147_483_647)?;
    cell(rt, "height -2147483648: ", -2_147_483_648)
}

// The ends of width and height.
fn sizes(rt: &impl Print) -> io::Result<()> {
    level_ground::<64>(rt, "64 by 1: ", 64, 1)?;
    level_ground::<65>(rt, "65 by 1: ", 65, 1)?;
    level_ground::<64>(rt, "1 by 64: ", 1, 64)?;
    level_ground::<65>(rt, "1 by 65: ", 1, 65)
}

// Lists and records that are too short or too long.
fn lengths(rt: &impl Print) -> io::Result<()> {
    level_ground::<63>(rt, "8 by 8, 63 entries: ", 8, 8)?;
    level_ground::<65>(rt, "8 by 8, 65 entries: ", 8, 8)?;
    say(rt, "15 bytes: ", ground::check_record(&[0u8; 15]))?;
    say(rt, "16 bytes: ", ground::check_record(&[0u8; 16]))
}

// Bytes as two hexadecimal digits each, on one line.
fn show(rt: &impl Print, bytes: &[u8]) -> io::Result<()> {
    for byte in bytes {
        print!(rt; "{byte:02x}")?;
    }
    println!(rt)
}

// Sample F read into lists, and written again into a record with a byte more.
fn both_ways(rt: &impl Print) -> io::Result<()> {
    let f =
        b"\xFD\xFF\xFF\xFF\x04\x00\x00\x00\x00\x01\x02\x00\x03\x00\x02\x00\x01\x00\x0E\x00\x00\x00\x06\x00\x00\x00\x04\x00\x00\x00";
    let mut heights = [0i32; 2];
    let mut marks = [0u8; 2];
    let mut water = [0u16; 2];
    let mut again = [0xAAu8; 31];
    say(
        rt,
        "F read: ",
        records::read_record(f, &mut heights, &mut marks, &mut water),
    )?;
    say(
        rt,
        "F written: ",
        records::write_record(2, 1, &heights, &marks, &water, &mut again),
    )?;
    show(rt, &again)
}

// The answer in document 01's words and numbers.
fn say_trace(rt: &impl Print, answer: Result<TraceEnd, TraceRefusal>) -> io::Result<()> {
    match answer {
        Ok(TraceEnd::Outlet(cell, steps)) => line(rt, "outlet ", u32::from(cell.0), steps),
        Ok(TraceEnd::Stopped(cell, steps)) => line(rt, "stopped ", u32::from(cell.0), steps),
        Err(TraceRefusal::BadList) => line(rt, "refused ", 2, 0),
        Err(TraceRefusal::BadCell) => line(rt, "refused ", 8, 0),
        Err(TraceRefusal::BadEntry(cell)) => line(rt, "refused ", 9, u32::from(cell.0)),
    }
}

// T1 to T5, the largest budget on T4's ring, which is answered at once, and a cell outside the list.
fn traces(rt: &impl Print) -> io::Result<()> {
    let g: [u16; 6] = [0, 2, 3, 4, 5, 5];
    let ring: [u16; 2] = [1, 0];
    let outside: [u16; 2] = [0, 9];
    say_trace(rt, trace::trace(&g, 1, 4))?;
    say_trace(rt, trace::trace(&g, 1, 3))?;
    say_trace(rt, trace::trace(&g, 5, 0))?;
    say_trace(rt, trace::trace(&ring, 0, 5))?;
    say_trace(rt, trace::trace(&outside, 1, 0))?;
    say_trace(rt, trace::trace(&ring, 0, 4_294_967_295))?;
    say_trace(rt, trace::trace(&ring, 2, 1))
}

fn main(rt: HostRuntime) -> io::Result<()> {
    heights(&rt)?;
    extremes(&rt)?;
    sizes(&rt)?;
    lengths(&rt)?;
    both_ways(&rt)?;
    traces(&rt)
}
