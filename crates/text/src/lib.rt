// The text that `drain` prints (document 01), for a tile and for a refusal, and the lines that `follow` prints, as bytes in a lent list:
// specs/Text.antt says which. Crate lake_text writes its lines with the same numbers, levels and words.
// Only reading and writing are left to the program. These are leaves: callers show that there is room, as `Printable` says of a tile.
#![tactic(auto)]

ghost use Rattle.std.specs.Prelude.{cond, [], map, ◌++◌, ◌∷◌, ◌≡◌, ◌<◌, ◌≤◌, eqb, length, take};
ghost use Rattle.lists.specs.Lists.{at, sum};
ghost use Rattle.rules.specs.Ground.{dropped};
ghost use Rattle.text.specs.Text.{cell_line, cell_lines, decimal, outlet_drainage, pair_line, refused_text};
ghost use Rattle.text.specs.Text.{signed_decimal, size_line, sums_line, tile_text};
ghost use Rattle.text.specs.Writing.{CellsFit, Fits, Printable, Printed, Wrote};

use kinds::Cell;

// A number's decimal digits: those of its tenth, and then the last one.
fn write_decimal(text: &mut [u8], from: usize, n: u64) -> usize
    requires { Fits from (decimal n) text.old }
    ensures { Wrote from (decimal n) text.old text.new result }
{
    if n < 10 {
        text[from] = b'0' + n as u8;
        return from + 1;
    }
    let to = write_decimal(text, from, n / 10);
    text[to] = b'0' + (n % 10) as u8;
    to + 1
}

// A number's digits, and then a space or a newline.
pub fn write_number(text: &mut [u8], from: usize, n: u64, after: u8) -> usize
    requires { Fits from (decimal n ++ (after ∷ [])) text.old }
    ensures { Wrote from (decimal n ++ (after ∷ [])) text.old text.new result }
{
    let to = write_decimal(text, from, n);
    text[to] = after;
    to + 1
}

// A lifted level as the signed number that it stands for, and then a space.
pub fn write_level(text: &mut [u8], from: usize, level: u32) -> usize
    requires { Fits from (signed_decimal (dropped level) ++ (32 ∷ [])) text.old }
    ensures { Wrote from (signed_decimal (dropped level) ++ (32 ∷ [])) text.old text.new result }
{
    if 8_000_000 <= level {
        write_number(text, from, (level - 8_000_000) as u64, b' ')
    } else {
        text[from] = b'-';
        write_number(text, from + 1, (8_000_000 - level) as u64, b' ')
    }
}

// A word, with the space that follows it.
pub fn write_word(text: &mut [u8], from: usize, word: &[u8]) -> usize
    requires { Fits from word.now text.old }
    ensures { Wrote from word.now text.old text.new result }
{
    sections::write_section(text, from, word);
    from + word.len()
}

// A line from the text's start on: a word, with the space that follows it, and two numbers.
pub fn write_pair(text: &mut [u8], word: &[u8], first: u16, second: u32) -> usize
    requires { Fits 0 (pair_line word.now first second) text.old }
    ensures { Printed (pair_line word.now first second) text.old text.new result }
{
    let from = write_word(text, 0, word);
    let middle = write_number(text, from, first as u64, b' ');
    write_number(text, middle, second as u64, b'\n')
}

// The line of a cell: number, receiver, level, drainage.
fn write_cell(
    text: &mut [u8],
    from: usize,
    cell: Cell,
    receiver: Cell,
    level: u32,
    drainage: u32,
) -> usize
    requires { Fits from (cell_line cell.0 receiver.0 (dropped level) drainage) text.old }
    ensures { Wrote from (cell_line cell.0 receiver.0 (dropped level) drainage) text.old text.new result }
{
    let second = write_number(text, from, cell.0 as u64, b' ');
    let third = write_number(text, second, receiver.0 as u64, b' ');
    let fourth = write_level(text, third, level);
    write_number(text, fourth, drainage as u64, b'\n')
}

// The lines of the first n cells; levels are lifted.
fn write_cells(
    text: &mut [u8],
    from: usize,
    n: usize,
    receivers: &[u16],
    levels: &[u32],
    drainage: &[u32],
) -> usize
    requires { CellsFit from n receivers.now levels.now drainage.now text.old }
    ensures { Wrote from (cell_lines receivers.now (map dropped levels.now) drainage.now n)
        text.old text.new result }
{
    let mut to = from;
    for c in 0..n {
        to = write_cell(
            text,
            to,
            Cell(c as u16),
            Cell(receivers[c]),
            levels[c],
            drainage[c],
        );
    }
    to
}

// The drainage of a cell that is an outlet, and 0 for any other.
fn outlet_share(drainage: &[u32], marks: &[u8], c: usize) -> u64
    requires { (c < length drainage.now) × (c < length marks.now) }
    ensures { (result ≡ cond (eqb (at marks.now c) 1) (at drainage.now c) 0) × (result < 4294967296) }
{
    if marks[c] == 1 {
        u64::from(drainage[c])
    } else {
        0
    }
}

// The sum of the drainage of those of the first n cells that are outlets.
fn outlet_drainage(n: usize, drainage: &[u32], marks: &[u8]) -> u64
    requires { (n ≤ 4096) × (n ≤ length drainage.now) × (n ≤ length marks.now) }
    ensures { result ≡ outlet_drainage drainage.now marks.now n }
{
    let mut total: u64 = 0;
    for c in 0..n {
        total += outlet_share(drainage, marks, c);
    }
    total
}

// The sum of the water.
fn total_water(water: &[u16]) -> u64
    requires { length water.now ≤ 4096 }
    ensures { result ≡ sum water.now }
{
    water.iter().map(|x| u64::from(*x)).sum()
}

// The first line: width, height.
fn write_size(text: &mut [u8], width: u16, height: u16) -> usize
    requires { Fits 0 (size_line width height) text.old }
    ensures { Wrote 0 (size_line width height) text.old text.new result }
{
    write_pair(text, b"tile ", width, height as u32)
}

// The last line: the sum of the outlets' drainage, the sum of the water.
fn write_sums(text: &mut [u8], from: usize, out: u64, water: u64) -> usize
    requires { Fits from (sums_line out water) text.old }
    ensures { Wrote from (sums_line out water) text.old text.new result }
{
    let second = write_word(text, from, b"out ");
    let third = write_number(text, second, out, b' ');
    let fourth = write_word(text, third, b"of ");
    write_number(text, fourth, water, b'\n')
}

// The text of a tile of n cells, and how many bytes it takes; levels are lifted, and the lists may be longer.
pub fn write_tile(
    text: &mut [u8],
    width: u16,
    height: u16,
    n: usize,
    receivers: &[u16],
    levels: &[u32],
    drainage: &[u32],
    marks: &[u8],
    water: &[u16],
) -> usize
    requires { Printable width height n receivers.now levels.now drainage.now marks.now water.now text.old }
    ensures { Printed
        (tile_text width height (take n receivers.now) (map dropped (take n levels.now)) (take n drainage.now)
        (take n marks.now) (take n water.now))
        text.old text.new result }
{
    let first = write_size(text, width, height);
    let last = write_cells(text, first, n, receivers, levels, drainage);
    let out = outlet_drainage(n, drainage, marks);
    let rain = total_water(&water[..n]);
    write_sums(text, last, out, rain)
}

// The text of a refusal, and how many bytes it takes: at most 20 for a number and a place of 16 bits.
pub fn write_refused(text: &mut [u8], number: u16, place: u16) -> usize
    requires { 20 ≤ length text.old }
    ensures { Printed (refused_text number place) text.old text.new result }
{
    write_pair(text, b"refused ", number, place as u32)
}
