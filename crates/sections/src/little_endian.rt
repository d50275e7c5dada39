// The types whose numbers stand in a record, and how: each says how many bytes a number has, which bytes they are, and which number
// the bytes from an index on say. A law says that a number has its width. That what was written is read is in proofs/Numbers.antt, for numbers of
// 16, 32 and 64 bits without a sign; for heights it is in proofs/HeightSections.antt of `heights`.

ghost use Rattle.std.specs.Prelude.{[], List, ◌≡◌, ◌∷◌, ℕ, ◌+◌, ◌≤◌, length};
ghost use Rattle.std.specs.Int.{cast_signed, cast_unsigned, w32};
ghost use Rattle.std.proofs.Common.{rules};
ghost use Rattle.lists.specs.Lists.{at, stored};
ghost use Rattle.sections.specs.LittleEndian.{bytes_of, number_at};

// A number that stands in a record, its least byte first.
pub trait LittleEndian: Copy {
    // How many bytes a number has.
    const WIDTH: usize;

    ghost WIDTH: { ℕ };

    // The bytes of a number.
    ghost in_bytes: { Self → List ℕ };

    // The number that the bytes from an index on say.
    ghost from_bytes: { List ℕ → ℕ → Self };

    // The number in the bytes from index `from` on.
    fn read(bytes: &[u8], from: usize) -> Self
        requires { from + WIDTH ≤ length bytes.now }
        ensures { result ≡ from_bytes bytes.now from };

    // The number into the bytes from index `from` on.
    fn write(self, bytes: &mut [u8], from: usize)
        requires { from + WIDTH ≤ length bytes.old }
        ensures { bytes.new ≡ stored from (in_bytes self) bytes.old };

    // Each number has that many bytes.
    ghost length_in_bytes: { (x : Self) → length (in_bytes x) ≡ WIDTH };
}

impl LittleEndian for u8 {
    const WIDTH: usize = 1;

    ghost WIDTH = { 1 };

    ghost in_bytes = { λ x. x ∷ [] };

    ghost from_bytes = { at };

    ghost length_in_bytes = { Prim.search rules };

    fn read(bytes: &[u8], from: usize) -> u8 {
        bytes[from]
    }

    fn write(self, bytes: &mut [u8], from: usize) {
        bytes[from] = self;
    }
}

impl LittleEndian for u16 {
    const WIDTH: usize = 2;

    ghost WIDTH = { 2 };

    ghost in_bytes = { bytes_of 2 };

    ghost from_bytes = { number_at 2 };

    ghost length_in_bytes = { Prim.search rules };

    fn read(bytes: &[u8], from: usize) -> u16 {
        u16::from_le_bytes([bytes[from], bytes[from + 1]])
    }

    fn write(self, bytes: &mut [u8], from: usize) {
        bytes[from..from + 2].copy_from_slice(&self.to_le_bytes());
    }
}

impl LittleEndian for u32 {
    const WIDTH: usize = 4;

    ghost WIDTH = { 4 };

    ghost in_bytes = { bytes_of 4 };

    ghost from_bytes = { number_at 4 };

    ghost length_in_bytes = { Prim.search rules };

    fn read(bytes: &[u8], from: usize) -> u32 {
        u32::from_le_bytes([
            bytes[from],
            bytes[from + 1],
            bytes[from + 2],
            bytes[from + 3],
        ])
    }

    fn write(self, bytes: &mut [u8], from: usize) {
        bytes[from..from + 4].copy_from_slice(&self.to_le_bytes());
    }
}

impl LittleEndian for u64 {
    const WIDTH: usize = 8;

    ghost WIDTH = { 8 };

    ghost in_bytes = { bytes_of 8 };

    ghost from_bytes = { number_at 8 };

    ghost length_in_bytes = { Prim.search rules };

    fn read(bytes: &[u8], from: usize) -> u64 {
        u64::from_le_bytes([
            bytes[from],
            bytes[from + 1],
            bytes[from + 2],
            bytes[from + 3],
            bytes[from + 4],
            bytes[from + 5],
            bytes[from + 6],
            bytes[from + 7],
        ])
    }

    fn write(self, bytes: &mut [u8], from: usize) {
        bytes[from..from + 8].copy_from_slice(&self.to_le_bytes());
    }
}

// Two's complement.
impl LittleEndian for i32 {
    const WIDTH: usize = 4;

    ghost WIDTH = { 4 };

    ghost in_bytes = { λ x. bytes_of 4 (cast_unsigned w32 x) };

    ghost from_bytes = { λ s from. cast_signed w32 (number_at 4 s from) };

    ghost length_in_bytes = { Prim.search rules };

    fn read(bytes: &[u8], from: usize) -> i32 {
        u32::read(bytes, from).cast_signed()
    }

    fn write(self, bytes: &mut [u8], from: usize) {
        self.cast_unsigned().write(bytes, from);
    }
}
