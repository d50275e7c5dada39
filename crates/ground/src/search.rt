// A search by rows and columns for the first cell that is bad (document 01, "Numbers given back"), and the tests that it is made with:
// heights of a record and marks are both bytes; heights of lists are numbers.
ghost use Rattle.std.specs.Prelude.{◌≡◌, ◌*◌, ◌+◌, ◌<◌, ◌≤◌, Bool, length, MatchOption, ℕ};
ghost use Rattle.lists.specs.Find.{find};
ghost use Rattle.ground.specs.Judge.{bad_height, bad_mark};
ghost use Rattle.ground.specs.Record.{bad_bits};

use crate::Size;

// The first cell of a tile that the test finds bad: the loops by rows and columns are left by their label as soon as it is found.
pub fn first<F: Fn(usize) -> bool>(size: Size, is_bad: F) -> Option<usize>
    requires size { (size.width ≤ 64) × (size.height ≤ 64) }
    requires callable { (k : ℕ) → k < size.height * size.width → F.pre is_bad k }
    ensures { (p : ℕ → Bool) → ((k : ℕ) → k < size.height * size.width → (y : Bool) → F.post is_bad k y → y ≡ p k)
        → let n = size.height * size.width in MatchOption result (find p n ≡ n) (λ k. (k ≡ find p n) × (k < n)) }
{
    let width = usize::from(size.width);
    let height = usize::from(size.height);
    let mut place = None;
    'search: for row in 0..height {
        for col in 0..width {
            let cell = row * width + col;
            if is_bad(cell) {
                place = Some(cell);
                break 'search;
            }
        }
    }
    place
}

// The bits of a record's height of this cell are out of range; each cell has four bytes.
pub fn are_bad_bits(bytes: &[u8], cell: usize) -> bool
    requires { 4 * (cell + 1) ≤ length bytes.now }
    ensures { result ≡ bad_bits bytes.now cell }
{
    !heights::bits_in_range(sections::read::<u32>(bytes, 4 * cell))
}

// The height in the entry of this cell is out of range.
pub fn is_bad_height(list: &[i32], cell: usize) -> bool
    requires { cell < length list.now }
    ensures { result ≡ bad_height list.now cell }
{
    !heights::in_range(list[cell])
}

// The mark of this cell is neither 0 nor 1.
pub fn is_bad_mark(marks: &[u8], cell: usize) -> bool
    requires { cell < length marks.now }
    ensures { result ≡ bad_mark marks.now cell }
{
    marks[cell] > 1
}
