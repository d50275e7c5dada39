// What is judged without a look at the cells: 1, 2, 7 and 3 of document 01's table.
ghost use Rattle.std.specs.Prelude.{◌≡◌, ◌≤◌, length};
ghost use Rattle.ground.specs.Judge.{lists_full, size_allowed};
ghost use Rattle.ground.specs.Record.{distances_right};
ghost use Rattle.ground.specs.Rooms.{room_for};

use crate::Room;

// Width and height are 1 to 64.
pub fn size_allowed(width: u16, height: u16) -> bool
    ensures { result ≡ size_allowed width height }
{
    1 <= width && (width <= 64 && (1 <= height && height <= 64))
}

// The three distances of the trailer are those of n cells.
pub fn distances_right(bytes: &[u8], n: usize) -> bool
    requires { (16 ≤ length bytes.now) × (n ≤ 4096) }
    ensures { result ≡ distances_right bytes.now n }
{
    let from = bytes.len() - 16;
    sections::read::<u32>(bytes, from + 4) as usize == 7 * n
        && (sections::read::<u32>(bytes, from + 8) as usize == 3 * n
            && sections::read::<u32>(bytes, from + 12) as usize == 2 * n)
}

// Each of the three lists has n entries.
pub fn lists_full(heights: &[i32], marks: &[u8], water: &[u16], n: usize) -> bool
    ensures { result ≡ lists_full heights.now marks.now water.now n }
{
    heights.len() == n && (marks.len() == n && water.len() == n)
}

// The outputs have room for n cells.
pub fn has_room(room: Room, n: usize) -> bool
    requires { n ≤ 4096 }
    ensures { result ≡ room_for room.each room.fixed room.len n }
{
    usize::from(room.each) * n + usize::from(room.fixed) <= room.len
}
