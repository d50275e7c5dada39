// Lakes with volumes (document 02, W-202): definitions, samples and theorems. See specs/Groups.antt and specs/Lakes.antt.
// The function is a test of one note, for those who list lakes.
#![tactic(auto)]

ghost use Rattle.std.specs.Prelude.{◌≡◌, eqb};

// A flag of 1 says that a cell joins two groups of lower cells.
pub fn is_flagged(flag: u8) -> bool
    ensures { result ≡ eqb flag 1 }
{
    flag == 1
}
