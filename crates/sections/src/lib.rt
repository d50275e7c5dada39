// Little-endian numbers in byte slices (document 01, "Records"): one number read or written at an index, and a whole section of a
// record read into a list or written from one. The numbers are those of each type that stands in a record (little_endian.rt).
// These are leaves: each asks its caller to show that the bytes lie within the slice, and checks nothing by itself.
#![tactic(auto)]

ghost use Rattle.std.specs.Prelude.{◌≡◌, ◌*◌, ◌+◌, ◌≤◌, length};
ghost use Rattle.lists.specs.Lists.{flat, overwrite, stored, tab};

mod little_endian;

pub use little_endian::LittleEndian;

// The number in the bytes from index `from` on.
pub fn read<T: LittleEndian>(bytes: &[u8], from: usize) -> T
    requires { from + T.WIDTH ≤ length bytes.now }
    ensures { result ≡ T.from_bytes bytes.now from }
{
    T::read(bytes, from)
}

// A number into the bytes from index `from` on.
pub fn write<T: LittleEndian>(bytes: &mut [u8], from: usize, x: T)
    requires { from + T.WIDTH ≤ length bytes.old }
    ensures { bytes.new ≡ stored from (T.in_bytes x) bytes.old }
{
    x.write(bytes, from);
}

// All entries of a list into a part that holds just them. After i turns it has the first i entries.
fn fill<T: LittleEndian>(part: &mut [u8], list: &[T])
    requires { length part.old ≡ T.WIDTH * length list.now }
    ensures { part.new ≡ flat T.in_bytes list.now }
{
    for i in 0..list.len() {
        list[i].write(part, T::WIDTH * i);
    }
}

// The section of a list into the record from index `from` on: its own stretch of the record is filled.
pub fn write_section<T: LittleEndian>(bytes: &mut [u8], from: usize, list: &[T])
    requires { from + T.WIDTH * length list.now ≤ length bytes.old }
    ensures { bytes.new ≡ stored from (flat T.in_bytes list.now) bytes.old }
{
    let to = from + T::WIDTH * list.len();
    fill(&mut bytes[from..to], list);
}

// The n entries of the section from index `from` on, into a lent list.
#[tactic(auto, unfolding(lists::specs::Lists::filled))]
pub fn read_section<T: LittleEndian>(bytes: &[u8], from: usize, n: usize, list: &mut [T])
    requires { (from + T.WIDTH * n ≤ length bytes.now) × (n ≤ length list.old) }
    ensures { list.new ≡ overwrite (tab n (λ k. T.from_bytes bytes.now (from + T.WIDTH * k))) list.old }
{
    lists::fill(
        list,
        n,
        |k: usize| -> T
            requires { from + T.WIDTH * k + T.WIDTH ≤ length bytes.now }
        { T::read(bytes, from + T::WIDTH * k) },
    );
}
