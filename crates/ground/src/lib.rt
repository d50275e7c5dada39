// Grounds judged (document 01, "Ground" and "Numbers given back"): a record or lists are accepted, or refused with the first row of
// the table that holds, in the table's order. specs/Record.antt has the format and specs/Judge.antt the judgement.
#![tactic(auto)]

ghost use Rattle.std.specs.Prelude.{[], ◌≡◌, ◌*◌, ◌+◌, ◌≤◌, length};
ghost use Rattle.ground.specs.Judge.{judge_cells, judge_lists, judge_marks, judge_record, judge_sized};
ghost use Rattle.ground.specs.Judge.{number_of, place_of, refusal_number, refusal_place};
ghost use Rattle.ground.specs.Record.{ground_in, ground_of_lists};
ghost use Rattle.ground.specs.Rooms.{any_room, room_for};

use kinds::Cell;
use std::error::Error;
use std::fmt;

mod greatest; // greatest.rt: the greatest height and the greatest mark, which say whether anything is wrong
mod limits; // limits.rt: what is judged without a look at the cells
mod search; // search.rt: the first bad height and the first bad mark, where something is wrong

// Why a ground is refused; `number_of` and `place_of` of specs/Judge.antt give the numbers of document 01.
#[derive(Clone, Copy, Debug, PartialEq, Eq)]
pub enum Refusal {
    // Width or height is 0 or above 64.
    BadSize,
    // An input list hasn't N entries, or a record is under 16 bytes or not 7N + 16.
    BadLength,
    // A distance in the trailer is wrong.
    BadDistance,
    // An output list or record is too short.
    NoRoom,
    // A height is out of range, in this cell first.
    BadHeight(Cell),
    // A mark is neither 0 nor 1, in this cell first.
    BadMark(Cell),
    // No cell is an outlet.
    NoOutlet,
}

impl Refusal {
    // The number of a refusal.
    fn number(self) -> u16
        ensures { result ≡ refusal_number self }
    {
        match self {
            Refusal::BadSize => 1,
            Refusal::BadLength => 2,
            Refusal::NoRoom => 3,
            Refusal::BadHeight(_) => 4,
            Refusal::BadMark(_) => 5,
            Refusal::NoOutlet => 6,
            Refusal::BadDistance => 7,
        }
    }

    // The place of a refusal.
    fn place(self) -> u16
        ensures { result ≡ refusal_place self }
    {
        match self {
            Refusal::BadHeight(cell) | Refusal::BadMark(cell) => cell.0,
            _ => 0,
        }
    }
}

impl fmt::Display for Refusal {
    fn fmt<W: fmt::Write>(&self, f: &mut fmt::Formatter<W>) -> fmt::Result {
        match self {
            Refusal::BadSize => write!(f, "width or height is 0 or above 64"),
            Refusal::BadLength => write!(f, "a list or record is of the wrong length"),
            Refusal::BadDistance => write!(f, "a distance in the trailer is wrong"),
            Refusal::NoRoom => write!(f, "an output list or record is too short"),
            Refusal::BadHeight(cell) => write!(f, "the height of cell {} is out of range", cell.0),
            Refusal::BadMark(cell) => write!(f, "the mark of cell {} is neither 0 nor 1", cell.0),
            Refusal::NoOutlet => write!(f, "no cell is an outlet"),
        }
    }
}

impl Error for Refusal {}

// The width and the height of an accepted ground.
#[derive(Clone, Copy, Debug, PartialEq, Eq)]
pub struct Size {
    pub width: u16,
    pub height: u16,
}

// The answer to a ground: its size where it is accepted, or why it is refused.
pub type Judged = Result<Size, Refusal>;

// The outputs of a call: `len` entries or bytes, of which each cell takes `each`, and `fixed` are taken besides.
#[derive(Clone, Copy)]
pub struct Room {
    pub each: u16,
    pub fixed: u16,
    pub len: usize,
}

// A call with no outputs: there is always room.
const NO_OUTPUTS: Room = Room {
    each: 0,
    fixed: 0,
    len: 0,
};

// The number given back for an answer: 0 where accepted, 1 to 7 where refused.
pub fn number(judged: Judged) -> u16
    ensures { result ≡ number_of judged }
{
    match judged {
        Ok(_) => 0,
        Err(why) => why.number(),
    }
}

// The place given back for an answer: the first bad cell of 4 and 5, and 0 of every other.
pub fn place(judged: Judged) -> u16
    ensures { result ≡ place_of judged }
{
    match judged {
        Ok(_) => 0,
        Err(why) => why.place(),
    }
}

// N, the number of cells.
pub fn cells(width: u16, height: u16) -> usize
    ensures { result ≡ height * width }
{
    usize::from(height) * usize::from(width)
}

// 5 and 6: the marks of a tile. The greatest says whether a mark is bad, and then whether a cell is an outlet.
fn judge_marks(marks: &[u8], size: Size) -> Judged
    requires { (size.width ≤ 64) × (size.height ≤ 64) × (length marks.now ≡ size.height * size.width) }
    ensures { result ≡ judge_marks (ground_of_lists size.width size.height [] marks.now []) }
{
    let most = greatest::greatest_mark(marks);
    if most > 1 {
        let bad = search::first(size, |cell| search::is_bad_mark(marks, cell)).unwrap();
        return Err(Refusal::BadMark(Cell(bad as u16)));
    }
    if rules::is_outlet(most) {
        Ok(size)
    } else {
        Err(Refusal::NoOutlet)
    }
}

// 4, 5 and 6, of a record. The greatest height says whether one is bad.
fn judge_cells_of_record(bytes: &[u8], size: Size) -> Judged
    requires { (size.width ≤ 64) × (size.height ≤ 64) × (length bytes.now ≡ 7 * (size.height * size.width) + 16) }
    ensures { result ≡ judge_cells (ground_in bytes.now size.width size.height) }
{
    let n = cells(size.width, size.height);
    let is_high = greatest::greatest_height_of_record(bytes, n) > 16_000_000;
    if is_high {
        let bad = search::first(size, |cell| search::are_bad_bits(bytes, cell)).unwrap();
        return Err(Refusal::BadHeight(Cell(bad as u16)));
    }
    let from = 4 * n;
    let to = 5 * n;
    judge_marks(&bytes[from..to], size)
}

// 4, 5 and 6, of lists.
fn judge_cells_of_lists(heights: &[i32], marks: &[u8], size: Size) -> Judged
    requires { (size.width ≤ 64) × (size.height ≤ 64)
        × (length heights.now ≡ size.height * size.width) × (length marks.now ≡ size.height * size.width) }
    ensures { result ≡ judge_cells (ground_of_lists size.width size.height heights.now marks.now []) }
{
    match search::first(size, |cell| search::is_bad_height(heights, cell)) {
        Some(bad) => Err(Refusal::BadHeight(Cell(bad as u16))),
        None => judge_marks(marks, size),
    }
}

// A record whose trailer names this width and height.
fn judge_sized(bytes: &[u8], room: Room, width: u16, height: u16) -> Judged
    requires { 16 ≤ length bytes.now }
    ensures { result ≡ judge_sized (room_for room.each room.fixed room.len) bytes.now width height }
{
    if !limits::size_allowed(width, height) {
        return Err(Refusal::BadSize);
    }
    let n = cells(width, height);
    if bytes.len() != 7 * n + 16 {
        return Err(Refusal::BadLength);
    }
    if !limits::distances_right(bytes, n) {
        return Err(Refusal::BadDistance);
    }
    if !limits::has_room(room, n) {
        return Err(Refusal::NoRoom);
    }
    judge_cells_of_record(bytes, Size { width, height })
}

// A record, for a call with outputs.
pub fn judge_record(bytes: &[u8], room: Room) -> Judged
    ensures { result ≡ judge_record (room_for room.each room.fixed room.len) bytes.now }
{
    if bytes.len() < 16 {
        return Err(Refusal::BadLength);
    }
    let from = bytes.len() - 16;
    let width = sections::read::<u16>(bytes, from);
    let height = sections::read::<u16>(bytes, from + 2);
    judge_sized(bytes, room, width, height)
}

// A record by itself.
pub fn check_record(bytes: &[u8]) -> Judged
    ensures { result ≡ judge_record any_room bytes.now }
{
    judge_record(bytes, NO_OUTPUTS)
}

// Lists, for a call with outputs.
pub fn judge_lists(
    width: u16,
    height: u16,
    heights: &[i32],
    marks: &[u8],
    water: &[u16],
    room: Room,
) -> Judged
    ensures { let g = ground_of_lists width height heights.now marks.now water.now in
        result ≡ judge_lists (room_for room.each room.fixed room.len) g }
{
    if !limits::size_allowed(width, height) {
        return Err(Refusal::BadSize);
    }
    let n = cells(width, height);
    if !limits::lists_full(heights, marks, water, n) {
        return Err(Refusal::BadLength);
    }
    if !limits::has_room(room, n) {
        return Err(Refusal::NoRoom);
    }
    judge_cells_of_lists(heights, marks, Size { width, height })
}

// Lists by themselves.
pub fn check_lists(width: u16, height: u16, heights: &[i32], marks: &[u8], water: &[u16]) -> Judged
    ensures { let g = ground_of_lists width height heights.now marks.now water.now in
        result ≡ judge_lists any_room g }
{
    judge_lists(width, height, heights, marks, water, NO_OUTPUTS)
}
