// The text that the program `lakes` prints (document 02, W-202), as bytes in a lent list: specs/LakeText.antt says which.
// These are leaves: callers show that there is room.
#![tactic(auto)]

ghost use Rattle.std.specs.Prelude.{◌<◌, ◌≤◌, length};
ghost use Rattle.lake_rows.specs.Reading.{read_lake, read_lakes};
ghost use Rattle.lake_rules.specs.Fits.{LakesFit};
ghost use Rattle.lake_text.specs.LakeText.{lake_line, lakes_line, lakes_text, most_lakes_text};
ghost use Rattle.lists.specs.Lists.{flat};
ghost use Rattle.text.specs.Writing.{Fits, Printed, Wrote};

use kinds::Cell;
use lake_list::Row;

// The line of a lake: level, number of cells, volume, least cell; the level is lifted.
fn write_lake(
    text: &mut [u8],
    from: usize,
    level: u32,
    count: u16,
    volume: u64,
    least: Cell,
) -> usize
    requires { Fits from (lake_line (record { level = level; count = count; volume = volume; least = least.0 })) text.old }
    ensures { Wrote from (lake_line (record { level = level; count = count; volume = volume; least = least.0 })) text.old
        text.new result }
{
    let second = text::write_level(text, from, level);
    let third = text::write_number(text, second, count as u64, b' ');
    let fourth = text::write_number(text, third, volume, b' ');
    text::write_number(text, fourth, least.0 as u64, b'\n')
}

// The line of the lake of row i.
fn write_row(text: &mut [u8], from: usize, rows: &[Row], i: usize) -> usize
    requires i_in_bounds { i < length rows.now }
    requires fits { Fits from (lake_line (read_lake rows.now i)) text.old }
    ensures { Wrote from (lake_line (read_lake rows.now i)) text.old text.new result }
{
    let level = lake_rows::level_in(rows, i);
    let count = lake_rows::count_in(rows, i);
    let volume = lake_rows::volume_in(rows, i);
    let least = lake_rows::least_in(rows, i);
    write_lake(text, from, level, count, volume, Cell(least))
}

// The lines of the lakes of the first n rows.
fn write_rows(text: &mut [u8], from: usize, n: usize, rows: &[Row]) -> usize
    requires n_bound { (n ≤ 4096) × (n ≤ length rows.now) }
    requires fits { Fits from (flat lake_line (read_lakes rows.now n)) text.old }
    ensures { Wrote from (flat lake_line (read_lakes rows.now n)) text.old text.new result }
{
    let mut to = from;
    // The lines of the first i lakes are written, and end at `to`.
    for i in 0..n {
        to = write_row(text, to, rows, i);
    }
    to
}

// The first line: how many lakes.
fn write_count(text: &mut [u8], n: usize) -> usize
    requires { (n ≤ 4096) × Fits 0 (lakes_line n) text.old }
    ensures { Wrote 0 (lakes_line n) text.old text.new result }
{
    let from = text::write_word(text, 0, b"lakes ");
    text::write_number(text, from, n as u64, b'\n')
}

// The text of the lakes of the first n rows, and how many bytes it takes.
pub fn write_lakes(text: &mut [u8], n: usize, rows: &[Row]) -> usize
    requires n_bound { (n ≤ 4096) × (n ≤ length rows.now) × LakesFit 4096 (read_lakes rows.now n) }
    requires most_lakes_text_in_bounds { most_lakes_text ≤ length text.old }
    ensures { Printed (lakes_text (read_lakes rows.now n)) text.old text.new result }
{
    let from = write_count(text, n);
    write_rows(text, from, n, rows)
}
