// The lakes of a tile: its levels by the stages of the network, and then its lakes, as rows in a lent list.
#![tactic(auto)]

ghost use Rattle.std.specs.Prelude.{◌≡◌, ◌*◌, ◌≤◌, length};
ghost use Rattle.ground.specs.Record.{ground_in};
ghost use Rattle.lake_list.specs.Rows.{FoundIn};
ghost use Rattle.lake_stages.specs.Levels.{levels_on};
ghost use Rattle.lists.specs.Lists.{overwrite};
ghost use Rattle.record_stages.specs.Readable.{Readable};
ghost use Rattle.rules.specs.Land.{land4, rule4};
ghost use Rattle.rules.specs.Network.{lifted_network_of};
ghost use Rattle.rules.specs.Tile.{LawfulTile, tile_land};
ghost use Rattle.stages.specs.Linking.{Linked};

use grid::Neighbours;
use ground::Size;
use lake_list::{Row, TooDeep, list_lakes};
use record_stages::lift_record;
use stages::link_sides;
use walk::walk_links;

// The levels of a tile whose cells are linked. Work space: 36 KB, taken only once the cells are linked.
fn walk_levels(w: usize, heights: &[u32], marks: &[u8], links: &[u8], levels: &mut [u32])
    requires lawful_tile { LawfulTile rule4 w heights.now marks.now × Linked rule4 w heights.now marks.now links.now }
    requires heights_in_bounds { length heights.now ≤ length levels.old }
    ensures { levels.new ≡ overwrite (levels_on (tile_land rule4 w heights.now marks.now)) levels.old }
{
    let mut stack = [0u32; 4096];
    let mut order = [0u16; 4096];
    let mut receivers = [0u16; 4096];
    let mut wet = [0u8; 4096];
    walk_links(
        Neighbours::Four,
        w,
        heights,
        marks,
        links,
        &mut stack,
        &mut order,
        &mut receivers,
        levels,
        &mut wet,
    );
}

// The levels of a tile with an outlet. Work space: 12 KB, and that of linking or of walking.
fn find_levels(w: usize, heights: &[u32], marks: &[u8], levels: &mut [u32])
    requires lawful_tile { LawfulTile rule4 w heights.now marks.now }
    requires heights_in_bounds { length heights.now ≤ length levels.old }
    ensures { levels.new ≡ overwrite (levels_on (tile_land rule4 w heights.now marks.now)) levels.old }
{
    let mut basins = [0u16; 4096];
    let mut links = [0u8; 4226];
    link_sides(w, heights, marks, &mut basins, &mut links);
    walk_levels(w, heights, marks, &links, levels);
}

// The lakes of a tile with an outlet, or that one is too deep. Work space: 16 KB, and that of the levels or of listing.
pub fn tile_lakes(w: usize, heights: &[u32], marks: &[u8], rows: &mut [Row]) -> Result<u16, TooDeep>
    requires lawful_tile { LawfulTile rule4 w heights.now marks.now }
    requires heights_in_bounds { length heights.now ≤ length rows.old }
    ensures { let L = tile_land rule4 w heights.now marks.now in
        FoundIn L (levels_on L) result rows.new }
{
    let n = heights.len();
    let mut levels = [0u32; 4096];
    find_levels(w, heights, marks, &mut levels);
    list_lakes(w, heights, &levels[..n], rows)
}

// The lakes of the ground in an accepted record of this size, or that one is too deep. Work space: 16 KB, and that of a
// tile's lakes.
pub fn record_lakes(bytes: &[u8], size: Size, rows: &mut [Row]) -> Result<u16, TooDeep>
    requires readable { Readable bytes.now size.width size.height }
    requires width_in_bounds { size.height * size.width ≤ length rows.old }
    ensures { let g = ground_in bytes.now size.width size.height in
        FoundIn (land4 g) (lifted_network_of g).levels result rows.new }
{
    let n = ground::cells(size.width, size.height);
    let w = size.width as usize;
    let from = 4 * n;
    let to = 5 * n;
    let mut lifted = [0u32; 4096];
    lift_record(bytes, n, &mut lifted);
    tile_lakes(w, &lifted[..n], &bytes[from..to], rows)
}
