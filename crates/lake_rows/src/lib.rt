// A lake's numbers, read out of the list of rows that lakes are listed into: specs/Reading.antt says which lake a row's is.
#![tactic(auto)]

ghost use Rattle.std.specs.Prelude.{◌≡◌, ◌<◌, length};
ghost use Rattle.lake_rows.specs.Reading.{count_in, least_in, level_in, volume_in};

use lake_list::Row;

// The level, lifted.
pub fn level_in(rows: &[Row], i: usize) -> u32
    requires { i < length rows.now }
    ensures { result ≡ level_in rows.now i }
{
    rows[i].level
}

// The number of cells.
pub fn count_in(rows: &[Row], i: usize) -> u16
    requires { i < length rows.now }
    ensures { result ≡ count_in rows.now i }
{
    rows[i].count
}

// The least cell.
pub fn least_in(rows: &[Row], i: usize) -> u16
    requires { i < length rows.now }
    ensures { result ≡ least_in rows.now i }
{
    rows[i].least.0
}

// The sum of level minus height.
pub fn volume_in(rows: &[Row], i: usize) -> u64
    requires { i < length rows.now }
    ensures { result ≡ volume_in rows.now i }
{
    rows[i].volume
}
