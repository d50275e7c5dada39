// Enough crossings of a tile as pairs, ascending (rule 3): those between two labels, but for such as are the greatest of a ring within a
// square of four cells, which are never chosen.
#![tactic(auto)]

ghost use Rattle.std.specs.Prelude.{cond, List, ◌++◌, ◌≡◌, max, ℕ, ◌%◌, ◌*◌, ◌+◌, ◌-◌, ◌<◌, ◌≤◌, length};
ghost use Rattle.grid.specs.Window.{Grid};
ghost use Rattle.lists.specs.Lists.{at, filled};
ghost use Rattle.lists.specs.Stores.{Packs, Puts};
ghost use Rattle.squares.specs.Listing.{Listable, Listed, pairs_for};
ghost use Rattle.squares.specs.Squares as S;

use grid::Neighbours;
use kinds::Basin;
use lists::fill;

// A tile whose cells have labels, and which neighbours are asked for.
#[derive(Clone, Copy)]
struct Labelled<'a> {
    neighbours: Neighbours,
    w: usize,
    heights: &'a [u32],
    labels: &'a [u16],
}

// One of a cell's pairs: with the cell `on` places further. It is pair `here` of the square that begins `first` places before the cell,
// and pair `there` of the one that begins `second` places before. A cell's flag has its `bit` if it is kept.
#[derive(Clone, Copy)]
struct Side {
    on: usize,
    first: usize,
    here: u8,
    second: usize,
    there: u8,
    bit: u8,
}

// The key of a pair: 0 where its two cells have one label.
fn key(la: Basin, lb: Basin, ha: u32, hb: u32, bit: u32) -> u32
    requires { (ha ≤ 16000000) × (hb ≤ 16000000) × (bit < 64) }
    ensures { result ≡ S.cross_key la.0 lb.0 ha hb bit }
{
    let k = 64 * ha.max(hb) + bit;
    if la == lb { 0 } else { k }
}

// The greatest of the four sides.
fn greatest_side(ab: u32, ad: u32, be: u32, de: u32) -> u8
    ensures { result ≡ max (max ab ad) (max be de) % 64 }
{
    (ab.max(ad).max(be.max(de)) % 64) as u8
}

// The bit of a pair that is greater than both others of one of its two triangles.
fn beaten(x: u32, a1: u32, a2: u32, b1: u32, b2: u32, bit: u8) -> u8
    ensures { (result ≡ S.beaten x a1 a2 b1 b2 bit) × (result ≤ bit) }
{
    if a1.max(a2).min(b1.max(b2)) < x {
        bit
    } else {
        0
    }
}

// Every pair that is the greatest of a triangle.
#[tactic(auto, unfolding(crate::specs::Squares::of_triangles))]
fn greatest_of_triangles(ab: u32, ad: u32, ae: u32, bd: u32, be: u32, de: u32) -> u8
    ensures { result ≡ S.of_triangles ab ad ae bd be de }
{
    beaten(ab, ad, bd, ae, be, 1)
        + beaten(ad, ab, bd, ae, de, 2)
        + beaten(ae, ab, be, ad, de, 4)
        + beaten(bd, ab, ad, be, de, 8)
        + beaten(be, ab, ae, bd, de, 16)
        + beaten(de, ad, ae, bd, be, 32)
}

// What the square that begins at c leaves out: a and b are its upper two cells, d and e its lower two.
#[tactic(auto, unfolding(crate::specs::Squares::square))]
fn square(tile: Labelled, c: usize) -> u8
    requires { S.Keyable tile.heights.now × (length tile.labels.now ≡ length tile.heights.now) × (tile.w ≤ 64)
        × (c + tile.w + 1 < length tile.heights.now) }
    ensures { let t = tile.entry in result ≡ S.square t.neighbours t.w t.heights.now t.labels.now c }
{
    let d = c + tile.w;
    let ha = tile.heights[c];
    let hb = tile.heights[c + 1];
    let hd = tile.heights[d];
    let he = tile.heights[d + 1];
    let la = Basin(tile.labels[c]);
    let lb = Basin(tile.labels[c + 1]);
    let ld = Basin(tile.labels[d]);
    let le = Basin(tile.labels[d + 1]);
    let ab = key(la, lb, ha, hb, 1);
    let ad = key(la, ld, ha, hd, 2);
    let ae = key(la, le, ha, he, 4);
    let bd = key(lb, ld, hb, hd, 8);
    let be = key(lb, le, hb, he, 16);
    let de = key(ld, le, hd, he, 32);
    match tile.neighbours {
        Neighbours::Four => greatest_side(ab, ad, be, de),
        Neighbours::Eight => greatest_of_triangles(ab, ad, ae, bd, be, de),
    }
}

// The squares of all cells but those of the last row. At the end of a row there is none, and what is written there is overwritten.
fn begin_squares(tile: Labelled, sq: &mut [u8])
    requires { S.Keyable tile.heights.now × (length tile.labels.now ≡ length tile.heights.now) × (tile.w ≤ 64)
        × (length tile.heights.now ≤ length sq.old) }
    ensures { let t = tile.entry in
        Puts (S.square t.neighbours t.w t.heights.now t.labels.now) 0 (length t.heights.now - (t.w + 1)) sq.old sq.new }
{
    let count = tile.heights.len().saturating_sub(tile.w + 1);
    fill(sq, count, |c| square(tile, c));
}

// 13 at the end of each row: no square begins there, and the pairs of bits 1, 4 and 8 would lead to the next row.
fn end_rows(w: usize, n: usize, sq: &mut [u8])
    requires { Grid w n × (n ≤ length sq.old) }
    ensures { S.Ends w n sq.old sq.new }
{
    for row in 0..n / w {
        sq[row * w + w - 1] = 13;
    }
}

// What the square that begins at each cell leaves out. The last row keeps its 8s: no square begins there, and the pair of bit 8 would lead on
// from its end.
fn squares(tile: Labelled, sq: &mut [u8])
    requires keyable { S.Keyable tile.heights.now × (length tile.labels.now ≡ length tile.heights.now) }
    requires grid { Grid tile.w (length tile.heights.now) × (length tile.heights.now ≤ length sq.old) }
    requires by_index { (k : ℕ) → k < length tile.heights.now → at sq.old k ≡ 8 }
    ensures { let t = tile.entry in
        sq.new ≡ filled (S.square_at t.neighbours t.w t.heights.now t.labels.now) (length t.heights.now) sq.old }
{
    begin_squares(tile, sq);
    end_rows(tile.w, tile.heights.len(), sq);
}

// The same after a margin of 64 places, which keep their 8s.
fn margined_squares(tile: Labelled, sq: &mut [u8])
    requires keyable { S.Keyable tile.heights.now × (length tile.labels.now ≡ length tile.heights.now) }
    requires grid { Grid tile.w (length tile.heights.now) × (length tile.heights.now + 64 ≤ length sq.old) }
    requires by_index { (i : ℕ) → i < length tile.heights.now + 64 → at sq.old i ≡ 8 }
    ensures { let t = tile.entry in
        (i : ℕ) → i < length t.heights.now + 64
        → at sq.new i ≡ S.margined (S.square_at t.neighbours t.w t.heights.now t.labels.now) i }
{
    squares(tile, &mut sq[64..]);
}

// The bit of a side's pair where it is kept: its labels differ, and neither of its squares s and t leaves it out.
fn kept(side: Side, a: Basin, b: Basin, s: u8, t: u8) -> u8
    requires { (0 < side.here) × (0 < side.there) }
    ensures { (result ≡ cond (S.kept_by a.0 b.0 s side.here t side.there) side.bit 0) × (result ≤ side.bit) }
{
    let out = u8::from(a == b) + s / side.here % 2 + t / side.there % 2;
    if out == 0 { side.bit } else { 0 }
}

// Adds the bits of one side's pairs to the flags. The squares have a margin of 64 places before them, so that each cell has both of its
// squares to look at.
fn add_flags(tile: Labelled, side: Side, sq: &[u8], flags: &mut [u8])
    requires on_bound { (side.on ≤ 65) × (side.first ≤ 64) × (side.second ≤ 64) × (0 < side.here) × (0 < side.there) }
    requires n_bound { S.Flaggable (length tile.heights.now) (length tile.labels.now) (length sq.now) (length flags.old) }
    requires by_index { (c : ℕ) → c < length tile.heights.now → at flags.old c + side.bit < 256 }
    ensures { let n = length tile.entry.heights.now in
        Puts (λ c. at flags.old c + S.flag side n tile.entry.labels.now (at sq.now) c) 0 (n - side.on) flags.old flags.new }
{
    for c in 0..tile.heights.len().saturating_sub(side.on) {
        flags[c] += kept(
            side,
            Basin(tile.labels[c]),
            Basin(tile.labels[c + side.on]),
            sq[c + 64 - side.first],
            sq[c + 64 - side.second],
        );
    }
}

// The flags of the pairs to the right and below, from flags that are all 0.
fn flag_sides(tile: Labelled, sq: &[u8], flags: &mut [u8])
    requires w_nonzero { (0 < tile.w) × (tile.w ≤ 64) }
    requires n_bound { S.Flaggable (length tile.heights.now) (length tile.labels.now) (length sq.now) (length flags.old) }
    requires by_index { (c : ℕ) → c < length tile.heights.now → at flags.old c ≡ 0 }
    ensures { let t = tile.entry in
        (c : ℕ) → c < length t.heights.now → at flags.new c ≡ S.side_flags t.w (length t.heights.now) t.labels.now (at sq.now) c }
{
    let right = Side {
        on: 1,
        first: 0,
        here: 1,
        second: tile.w,
        there: 32,
        bit: 1,
    };
    let below = Side {
        on: tile.w,
        first: 0,
        here: 2,
        second: 1,
        there: 16,
        bit: 4,
    };
    add_flags(tile, right, sq, flags);
    add_flags(tile, below, sq, flags);
}

// Adds those of the pairs below to the left and below to the right.
fn flag_corners(tile: Labelled, sq: &[u8], flags: &mut [u8])
    requires w_nonzero { (0 < tile.w) × (tile.w ≤ 64) }
    requires n_bound { S.Flaggable (length tile.heights.now) (length tile.labels.now) (length sq.now) (length flags.old) }
    requires by_index { (c : ℕ) → c < length tile.heights.now → at flags.old c ≤ 5 }
    ensures { let t = tile.entry in
        (c : ℕ) → c < length t.heights.now
        → at flags.new c ≡ at flags.old c + S.corner_flags t.w (length t.heights.now) t.labels.now (at sq.now) c }
{
    let left = Side {
        on: tile.w - 1,
        first: 1,
        here: 8,
        second: 1,
        there: 8,
        bit: 2,
    };
    let right = Side {
        on: tile.w + 1,
        first: 0,
        here: 4,
        second: 0,
        there: 4,
        bit: 8,
    };
    add_flags(tile, left, sq, flags);
    add_flags(tile, right, sq, flags);
}

// The flags of all pairs that are asked for, from flags that are all 0.
fn flag_pairs(tile: Labelled, sq: &[u8], flags: &mut [u8])
    requires w_nonzero { (0 < tile.w) × (tile.w ≤ 64) }
    requires n_bound { S.Flaggable (length tile.heights.now) (length tile.labels.now) (length sq.now) (length flags.old) }
    requires by_index { (c : ℕ) → c < length tile.heights.now → at flags.old c ≡ 0 }
    ensures { let t = tile.entry in
        (c : ℕ) → c < length t.heights.now
        → at flags.new c ≡ S.flag_by t.neighbours t.w (length t.heights.now) t.labels.now (at sq.now) c }
{
    flag_sides(tile, sq, flags);
    match tile.neighbours {
        Neighbours::Four => {}
        Neighbours::Eight => flag_corners(tile, sq, flags),
    }
}

// A pair to the next place of the list, and then counted or not.
fn pack(list: &mut [u16], k: usize, p: u16, bit: usize) -> usize
    requires { (k < length list.old) × (k < 16384) × (bit ≤ 1) }
    ensures { (result ≡ k + bit) × S.Packed p bit list.old k list.new result }
{
    list[k] = p;
    k + bit
}

// The same with a diagonal pair: of four neighbours there is none.
fn pack_corner(neighbours: Neighbours, list: &mut [u16], k: usize, p: u16, bit: usize) -> usize
    requires { S.CornerRoom neighbours bit k (length list.old) × (k < 16384) × (bit ≤ 1) }
    ensures { (result ≡ k + bit) × S.Packed p bit list.old k list.new result }
{
    match neighbours {
        Neighbours::Four => k,
        Neighbours::Eight => pack(list, k, p, bit),
    }
}

// The pairs of cell c by its flag.
fn pack_cell(neighbours: Neighbours, c: usize, flag: u8, list: &mut [u16], k: usize) -> usize
    requires { (c < 4096) × S.FlagAsked neighbours flag × (k + pairs_for neighbours 1 ≤ length list.old) × (k ≤ 4 * c) }
    ensures { (result ≤ k + pairs_for neighbours 1)
        × ((l : List ℕ) → Packs l list.old k → Packs (l ++ S.pairs_at c flag) list.new result) }
{
    let f = usize::from(flag);
    let p = (4 * c) as u16;
    let k1 = pack(list, k, p, f % 2);
    let k2 = pack_corner(neighbours, list, k1, p + 1, f / 2 % 2);
    let k3 = pack(list, k2, p + 2, f / 4 % 2);
    pack_corner(neighbours, list, k3, p + 3, f / 8 % 2)
}

// The flagged pairs, ascending, at the start of the list: each is written, and then counted or not. Gives their number.
// After c cells their k pairs stand at the start.
fn compress(neighbours: Neighbours, n: usize, flags: &[u8], list: &mut [u16]) -> usize
    requires n_bound { (n ≤ 4096) × (n ≤ length flags.now) × (pairs_for neighbours n ≤ length list.old) }
    requires by_index { (c : ℕ) → c < n → S.FlagAsked neighbours (at flags.now c) }
    ensures { Packs (S.pairs_of n (at flags.now)) list.new result × (result ≤ pairs_for neighbours n) }
{
    let mut k = 0;
    for c in 0..n {
        k = pack_cell(neighbours, c, flags[c], list, k);
    }
    k
}

// Enough crossings of a tile as pairs at the start of the list, ascending. Gives their number.
pub fn list_pairs(
    neighbours: Neighbours,
    w: usize,
    heights: &[u32],
    labels: &[u16],
    list: &mut [u16],
) -> usize
    requires { Listable neighbours w heights.now labels.now list.old }
    ensures { Listed neighbours w heights.now labels.now list.new result }
{
    let mut sq = [8u8; 4160];
    let mut flags = [0u8; 4096];
    let tile = Labelled {
        neighbours,
        w,
        heights,
        labels,
    };
    margined_squares(tile, &mut sq);
    flag_pairs(tile, &sq, &mut flags);
    compress(neighbours, heights.len(), &flags, list)
}
