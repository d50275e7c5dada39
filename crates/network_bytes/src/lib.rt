// The network record (document 01, "Records"): the six lists of a network, each written into its own stretch of the lent record,
// and then the trailer. specs/NetworkRecord.antt has the format.
#![tactic(auto)]

ghost use Rattle.std.specs.Prelude.{map, ◌≡◌, ◌*◌, ◌+◌, ◌≤◌, length, take};
ghost use Rattle.heights.specs.Bits.{dropped_bits, height_section};
ghost use Rattle.lists.specs.Lists.{flat, overwrite, stored};
ghost use Rattle.sections.specs.LittleEndian.{bytes_of};
ghost use Rattle.network_bytes.specs.NetworkRecord.{distances, flow_sections, network_record};
ghost use Rattle.network_bytes.specs.NetworkRecord.{network_trailer, water_sections, Writable};
ghost use Rattle.rules.specs.Ground.{dropped, Lifted};
ghost use Rattle.rules.specs.Network.{drop_levels};
ghost use Rattle.rules.specs.SixLists.{first_of, six_lists};

use heights::drop_bits;

// N, as a number that a distance is written with.
fn cells(width: u16, height: u16) -> u32
    requires { height * width ≤ 4096 }
    ensures { (result ≡ height * width) × (result ≤ 4096) }
{
    u32::from(height) * u32::from(width)
}

// All levels of a list, lifted, into a part that holds just them. After i turns it has the first i levels.
fn fill_levels(part: &mut [u8], levels: &[u32])
    requires { length part.old ≡ 4 * length levels.now }
    ensures { part.new ≡ flat (λ x. bytes_of 4 (dropped_bits x)) levels.now }
{
    for i in 0..levels.len() {
        sections::write(part, 4 * i, drop_bits(levels[i]));
    }
}

// The section of a list of lifted levels into the record from index `from` on.
fn write_section_levels(bytes: &mut [u8], from: usize, levels: &[u32])
    requires { (from + 4 * length levels.now ≤ length bytes.old) × Lifted levels.now }
    ensures { bytes.new ≡ stored from (height_section (map dropped levels.now)) bytes.old }
{
    let to = from + 4 * levels.len();
    fill_levels(&mut bytes[from..to], levels);
}

// Receivers, basins and order of n cells: the first three sections.
fn write_flow(n: usize, receivers: &[u16], basins: &[u16], order: &[u16], bytes: &mut [u8])
    requires n_in_bounds { (n ≤ length receivers.now) × (n ≤ length basins.now) × (n ≤ length order.now) }
    requires n_bound { (n ≤ 4096) × (6 * n ≤ length bytes.old) }
    ensures { bytes.new
        ≡ overwrite (flow_sections (take n receivers.now) (take n basins.now) (take n order.now))
        bytes.old }
{
    sections::write_section(bytes, 0, &receivers[..n]);
    sections::write_section(bytes, 2 * n, &basins[..n]);
    sections::write_section(bytes, 4 * n, &order[..n]);
}

// Levels, drainage and wet: the other three, from index 6N on.
fn write_water(n: usize, levels: &[u32], drainage: &[u32], wet: &[u8], bytes: &mut [u8])
    requires n_in_bounds { (n ≤ length levels.now) × (n ≤ length drainage.now) × (n ≤ length wet.now) }
    requires n_bound { (n ≤ 4096) × (15 * n ≤ length bytes.old) × Lifted (take n levels.now) }
    ensures { bytes.new
        ≡ stored (6 * n) (water_sections (take n levels.now) (take n drainage.now) (take n wet.now))
        bytes.old }
{
    write_section_levels(bytes, 6 * n, &levels[..n]);
    sections::write_section(bytes, 10 * n, &drainage[..n]);
    sections::write_section(bytes, 14 * n, &wet[..n]);
}

// The six distances back from the trailer, from index `from` on.
fn write_distances(bytes: &mut [u8], from: usize, n: u32)
    requires { (from + 24 ≤ length bytes.old) × (n ≤ 4096) }
    ensures { bytes.new ≡ stored from (distances n) bytes.old }
{
    sections::write(bytes, from, 15 * n);
    sections::write(bytes, from + 4, 13 * n);
    sections::write(bytes, from + 8, 11 * n);
    sections::write(bytes, from + 12, 9 * n);
    sections::write(bytes, from + 16, 5 * n);
    sections::write(bytes, from + 20, n);
}

// The trailer from index `from` on.
fn write_trailer(bytes: &mut [u8], from: usize, width: u16, height: u16)
    requires { (from + 28 ≤ length bytes.old) × (height * width ≤ 4096) }
    ensures { bytes.new ≡ stored from (network_trailer width height) bytes.old }
{
    sections::write(bytes, from, width);
    sections::write(bytes, from + 2, height);
    write_distances(bytes, from + 4, cells(width, height));
}

// The record of the network that stands at the start of six lists, levels lifted, and its size. A leaf: callers show what `Writable`
// asks.
pub fn write_network(
    width: u16,
    height: u16,
    receivers: &[u16],
    basins: &[u16],
    order: &[u16],
    levels: &[u32],
    drainage: &[u32],
    wet: &[u8],
    bytes: &mut [u8],
)
    requires { Writable width height (six_lists receivers.now basins.now order.now levels.now drainage.now wet.now) bytes.old }
    ensures { let lists =
        six_lists receivers.now basins.now order.now levels.now drainage.now
        wet.now in
        bytes.new ≡ overwrite (network_record width height (drop_levels (first_of (height * width) lists))) bytes.old }
{
    let n = cells(width, height) as usize;
    write_flow(n, receivers, basins, order, bytes);
    write_water(n, levels, drainage, wet, bytes);
    write_trailer(bytes, 15 * n, width, height);
}
