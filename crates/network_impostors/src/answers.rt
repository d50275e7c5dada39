// What the impostors ask of the real call's answer before they write over its lists.
ghost use Rattle.std.specs.Prelude.{◌≡◌};
ghost use Rattle.network_impostors.specs.Impostors.{accepted_cells, accepted_three_by_three};

use ground::Judged;

// N of an accepted tile, and 0 of a refused one.
pub fn accepted_cells(judged: Judged) -> usize
    ensures { result ≡ accepted_cells judged }
{
    match judged {
        Ok(size) => ground::cells(size.width, size.height),
        Err(_) => 0,
    }
}

// An accepted tile of 3 by 3 cells.
pub fn accepted_three_by_three(judged: Judged) -> bool
    ensures { result ≡ accepted_three_by_three judged }
{
    match judged {
        Ok(size) => size.width == 3 && size.height == 3,
        Err(_) => false,
    }
}
