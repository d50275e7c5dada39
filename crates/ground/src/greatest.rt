// The greatest height of a record and the greatest mark, each by one pass over all cells. It says whether anything is wrong at all,
// and only then search.rt looks for the place. No turn has a branch, so that the compiler can take several cells at once.
ghost use Rattle.std.specs.Prelude.{◌≡◌, ◌*◌, ◌≤◌, length};
ghost use Rattle.ground.specs.Record.{lifts_in};
ghost use Rattle.lists.specs.Greatest.{greatest};

// The greatest of the first n heights of a record, lifted: above 16,000,000 exactly if one of them is out of range.
pub fn greatest_height_of_record(bytes: &[u8], n: usize) -> u32
    requires { 4 * n ≤ length bytes.now }
    ensures { result ≡ greatest (lifts_in bytes.now n) }
{
    let mut high: u32 = 0;
    for cell in 0..n {
        high = high.max(heights::lift_bits(sections::read::<u32>(bytes, 4 * cell)));
    }
    high
}

// The greatest mark: above 1 exactly if one of them is neither 0 nor 1.
pub fn greatest_mark(marks: &[u8]) -> u8
    ensures { result ≡ greatest marks.now }
{
    let mut most: u8 = 0;
    for mark in marks {
        most = most.max(*mark);
    }
    most
}
