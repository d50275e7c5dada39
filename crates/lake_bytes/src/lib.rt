// Lakes written as bytes, 16 for each (specs/LakeBytes.antt), from the rows that they were listed into.
// These are leaves: callers show that there is room, and that the lakes of the rows fit.
#![tactic(auto)]

ghost use Rattle.std.specs.Prelude.{◌≡◌, ◌*◌, ◌+◌, ◌<◌, ◌≤◌, length};
ghost use Rattle.lake_bytes.specs.LakeBytes.{lake_bytes, lakes_bytes};
ghost use Rattle.lake_rows.specs.Reading.{level_in, read_lake, read_lakes};
ghost use Rattle.lake_rules.specs.Fits.{LakesFit};
ghost use Rattle.lists.specs.Lists.{overwrite, stored};

use lake_list::Row;
use lake_rows::{count_in, least_in, level_in, volume_in};

// The lake of row i, into the 16 bytes from index `from` on.
fn write_lake(out: &mut [u8], from: usize, rows: &[Row], i: usize)
    requires { (from + 16 ≤ length out.old) × (i < length rows.now) × (level_in rows.now i ≤ 16000000) }
    ensures { out.new ≡ stored from (lake_bytes (read_lake rows.now i)) out.old }
{
    sections::write(out, from, heights::drop_bits(level_in(rows, i)));
    sections::write(out, from + 4, count_in(rows, i));
    sections::write(out, from + 6, least_in(rows, i));
    sections::write(out, from + 8, volume_in(rows, i));
}

// The lakes of the first n rows, from the start on. Bytes past them stay.
pub fn write_lakes(out: &mut [u8], rows: &[Row], n: usize)
    requires { (16 * n ≤ length out.old) × (n ≤ length rows.now) × LakesFit 4096 (read_lakes rows.now n) }
    ensures { out.new ≡ overwrite (lakes_bytes (read_lakes rows.now n)) out.old }
{
    for i in 0..n {
        write_lake(out, 16 * i, rows, i);
    }
}
