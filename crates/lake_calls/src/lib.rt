// The lakes of a ground, for calls (document 02, W-202): the answer with its numbers, and the call from lists to lists.
// The lakes are found as rows in work space. The lent lists are written only after 10 and 3 are judged: specs/LakeCall.antt.
#![tactic(auto)]

ghost use Rattle.std.specs.Prelude.{List, ◌≡◌, ℕ, ◌<◌, ◌≤◌, length};
ghost use Rattle.ground.specs.Good.{Good};
ghost use Rattle.ground.specs.Record.{ground_of_lists};
ghost use Rattle.lake_calls.specs.LakeCall.{judge_found, lake_lists, lakes_left, lakes_number, lakes_onto, LakesOutcome, lakes_place};
ghost use Rattle.lake_calls.specs.LakeCall.{shortest_lake_list};
ghost use Rattle.lake_calls.specs.declared.LakesRefusal.TheVariants.{Ground, TooDeep as Deep};
ghost use Rattle.lake_stages.specs.ReadFound.{ReadFound};
ghost use Rattle.lake_list.specs.Rows.{found_of};
ghost use Rattle.lake_rules.specs.Fits.{LakesFit};
ghost use Rattle.lake_rules.specs.Lakes.{Lake};
ghost use Rattle.lake_rows.specs.Reading.{level_in, read_lakes};
ghost use Rattle.lake_stages.specs.LakesOn.{lakes_on, too_deep_on};
ghost use Rattle.lists.specs.Allowed.{Allowed};
ghost use Rattle.rules.specs.Ground.{dropped};

use ground::{Refusal, Room};
use kinds::Cell;
use lake_list::{NO_ROW, Row, TooDeep};
use lake_rows::{count_in, least_in, level_in, volume_in};
use lake_stages::tile_lakes;
use network::lift_heights;
use std::error::Error;
use std::fmt;

// Why no lakes are listed; `lakes_number` and `lakes_place` of specs/LakeCall.antt give the numbers.
#[derive(Clone, Copy, Debug, PartialEq, Eq)]
pub enum LakesRefusal {
    // The ground is refused, or there is no room for its lakes.
    Ground(Refusal),
    // 10: an outermost lake is of depth above 64; the least cell of the first such lake.
    TooDeep(Cell),
}

impl fmt::Display for LakesRefusal {
    fn fmt<W: fmt::Write>(&self, f: &mut fmt::Formatter<W>) -> fmt::Result {
        match self {
            LakesRefusal::Ground(why) => write!(f, "{why}"),
            LakesRefusal::TooDeep(cell) => write!(
                f,
                "the lake of cell {} is deeper than 64",
                cell.0
            ),
        }
    }
}

impl Error for LakesRefusal {}

impl From<Refusal> for LakesRefusal {
    ghost from_gives = { λ why e. e ≡ Ground why };

    fn from(why: Refusal) -> LakesRefusal {
        LakesRefusal::Ground(why)
    }
}

impl From<TooDeep> for LakesRefusal {
    ghost from_gives = { λ lake e. e ≡ Deep lake.0 };

    fn from(lake: TooDeep) -> LakesRefusal {
        LakesRefusal::TooDeep(lake.0)
    }
}

// The answer to a call that lists lakes: how many are listed, or why none.
pub type LakesAnswer = Result<u16, LakesRefusal>;

// The number given back for an answer: 0 where the lakes are listed.
pub fn lakes_number(answer: LakesAnswer) -> u16
    ensures { result ≡ lakes_number answer }
{
    match answer {
        Ok(_) => 0,
        Err(LakesRefusal::Ground(why)) => ground::number(Err(why)),
        Err(LakesRefusal::TooDeep(_)) => 10,
    }
}

// The place given back for an answer.
pub fn lakes_place(answer: LakesAnswer) -> u16
    ensures { result ≡ lakes_place answer }
{
    match answer {
        Ok(_) => 0,
        Err(LakesRefusal::Ground(why)) => ground::place(Err(why)),
        Err(LakesRefusal::TooDeep(cell)) => cell.0,
    }
}

// 10, and then 3: the answer to what was found, with room for so many lakes.
pub fn judge_found(found: Result<u16, TooDeep>, room: usize) -> LakesAnswer
    ensures { result ≡ judge_found found room }
{
    let count = found?;
    if usize::from(count) <= room {
        Ok(count)
    } else {
        Err(LakesRefusal::Ground(Refusal::NoRoom))
    }
}

// The level of row i, dropped.
fn dropped_level(rows: &[Row], i: usize) -> i32
    requires { (i < length rows.now) × (level_in rows.now i ≤ 16000000) }
    ensures { result ≡ dropped (level_in rows.now i) }
{
    heights::drop_lift(level_in(rows, i))
}

// The lakes of the first n rows, at the start of the four lists.
fn write_lists(
    n: usize,
    rows: &[Row],
    levels: &mut [i32],
    counts: &mut [u16],
    volumes: &mut [u64],
    leasts: &mut [u16],
)
    requires n_in_bounds { (n ≤ length rows.now) × LakesFit 4096 (read_lakes rows.now n) }
    requires n_in_bounds_2 { (n ≤ length levels.old) × (n ≤ length counts.old) × (n ≤ length volumes.old) × (n ≤ length leasts.old) }
    ensures { let before = lake_lists levels.old counts.old volumes.old leasts.old in
        let after = lake_lists levels.new counts.new volumes.new leasts.new in
        after ≡ lakes_onto (read_lakes rows.now n) before }
{
    lists::fill(levels, n, |i| dropped_level(rows, i));
    lists::fill(counts, n, |i| count_in(rows, i));
    lists::fill(volumes, n, |i| volume_in(rows, i));
    lists::fill(leasts, n, |i| least_in(rows, i));
}

// The length of the shortest of the four lent lists.
fn shortest_length(levels: &[i32], counts: &[u16], volumes: &[u64], leasts: &[u16]) -> usize
    ensures { result ≡ shortest_lake_list (lake_lists levels.now counts.now volumes.now leasts.now) }
{
    let cells = volumes.len().min(leasts.len());
    levels.len().min(counts.len().min(cells))
}

// The answer to what was found; the lakes are written where that lists them.
fn write_found(
    found: Result<u16, TooDeep>,
    rows: &[Row],
    levels: &mut [i32],
    counts: &mut [u16],
    volumes: &mut [u64],
    leasts: &mut [u16],
) -> LakesAnswer
    requires { (deep : List (List ℕ)) × (ls : List Lake) × ReadFound deep ls found rows.now }
    ensures { let before = lake_lists levels.old counts.old volumes.old leasts.old in
        let after = lake_lists levels.new counts.new volumes.new leasts.new in
        (deep : List (List ℕ)) → (ls : List Lake) → ReadFound deep ls found rows.now
        → Allowed (judge_found (found_of deep ls) (shortest_lake_list before)) (λ r. lakes_left r ls before) result after }
{
    let room = shortest_length(levels, counts, volumes, leasts);
    let count = judge_found(found, room)?;
    write_lists(count as usize, rows, levels, counts, volumes, leasts);
    Ok(count)
}

// The lakes of an accepted ground. Work space: 80 KB, and that of finding lakes.
fn list_accepted(
    width: u16,
    height: u16,
    heights: &[i32],
    marks: &[u8],
    levels: &mut [i32],
    counts: &mut [u16],
    volumes: &mut [u64],
    leasts: &mut [u16],
) -> LakesAnswer
    requires { (water : List ℕ) × Good (ground_of_lists width height heights.now marks.now water) }
    ensures { let before = lake_lists levels.old counts.old volumes.old leasts.old in
        let after = lake_lists levels.new counts.new volumes.new leasts.new in
        (water : List ℕ) →
        let g = ground_of_lists width height heights.now marks.now water in
        Good g
        → Allowed (judge_found (found_of (too_deep_on g) (lakes_on g)) (shortest_lake_list before))
        (λ r. lakes_left r (lakes_on g) before) result after }
{
    let n = ground::cells(width, height);
    let w = width as usize;
    let mut rows = [NO_ROW; 4096];
    let mut lifted = [0u32; 4096];
    lift_heights(heights, &mut lifted);
    let found = tile_lakes(w, &lifted[..n], marks, &mut rows);
    write_found(found, &rows, levels, counts, volumes, leasts)
}

// The lakes of a tile, at the start of four lists: levels, numbers of cells, volumes and least cells, each lake after all the lakes
// inside it. Refusals 1, 2, 4, 5 and 6 of the ground, then 10, and then 3. A refusal leaves every lent list as it was; where the lakes
// are listed, the entries past them stay.
pub fn lakes_of_lists(
    width: u16,
    height: u16,
    heights: &[i32],
    marks: &[u8],
    water: &[u16],
    levels: &mut [i32],
    counts: &mut [u16],
    volumes: &mut [u64],
    leasts: &mut [u16],
) -> LakesAnswer
    ensures { let g = ground_of_lists width height heights.now marks.now water.now in
        let before = lake_lists levels.old counts.old volumes.old leasts.old in
        let after = lake_lists levels.new counts.new volumes.new leasts.new in
        LakesOutcome g before result after }
{
    let any = Room {
        each: 0,
        fixed: 0,
        len: 0,
    };
    ground::judge_lists(width, height, heights, marks, water, any)?;
    list_accepted(
        width, height, heights, marks, levels, counts, volumes, leasts,
    )
}
