// Rule 9, drainage: every cell starts with its own water, and going backwards through the order each gives all it has to its
// receiver, so that a cell has all its water before it gives. The water is a list, or a section of a record, read where it stands.
#![tactic(auto)]

ghost use Rattle.std.specs.Prelude.{List, ◌≡◌, ℕ, ◌*◌, ◌+◌, ◌<◌, ◌≤◌, length};
ghost use Rattle.drainage.specs.Giving.{Drained, given, Ordered};
ghost use Rattle.lists.specs.Lists.{at, filled};
ghost use Rattle.sections.specs.LittleEndian.{number_at, numbers_at};
ghost use Rattle.rules.specs.Land.{Land};

use kinds::{Cell, Numbered};

// Each cell's own water, from a list.
fn own_water(water: &[u16], drainage: &mut [u32])
    requires { length water.now ≤ length drainage.old }
    ensures { drainage.new ≡ filled (at water.now) (length water.now) drainage.old }
{
    lists::fill(drainage, water.len(), |c| u32::from(water[c]));
}

// Each cell's own water, from the section of a record that starts at index `from`.
fn section_water(bytes: &[u8], from: usize, n: usize, drainage: &mut [u32])
    requires { (from + 2 * n ≤ length bytes.now) × (n ≤ length drainage.old) }
    ensures { drainage.new ≡ filled (λ c. number_at 2 bytes.now (from + 2 * c)) n drainage.old }
{
    lists::fill(
        drainage,
        n,
        |c| u32::from(sections::read::<u16>(bytes, from + 2 * c)),
    );
}

// Cell c gives all it has to its receiver. An outlet, its own receiver, keeps it.
fn give(drainage: &mut [u32], c: Cell, receiver: Cell)
    requires c_in_bounds { (c.0 < length drainage.old) × (receiver.0 < length drainage.old) }
    requires c_bound { (receiver.0 ≡ c.0 → ⊥) → at drainage.old receiver.0 + at drainage.old c.0 ≤ 268431360 }
    ensures { drainage.new ≡ given drainage.old c.0 receiver.0 }
{
    if c == receiver {
        return;
    }
    let both = drainage[receiver.index()] + drainage[c.index()];
    drainage[receiver.index()] = both;
}

// From the last place of the order to the first, each cell gives to its receiver.
fn give_all(order: &[u16], receivers: &[u16], drainage: &mut [u32], n: usize)
    requires by_index { (L : Land) × (r : List ℕ) × Ordered L r n order.now receivers.now }
    requires n_in_bounds { (n ≤ length drainage.old) × ((c : ℕ) → c < n → at drainage.old c ≤ 65535) }
    ensures { Drained n drainage.old order.now receivers.now drainage.old drainage.new }
{
    for place in (0..n).rev() {
        let c = Cell(order[place]);
        let receiver = Cell(receivers[c.index()]);
        give(drainage, c, receiver);
    }
}

// The drainage of all cells: the water of all cells whose way passes through a cell, itself included.
pub fn drain(water: &[u16], order: &[u16], receivers: &[u16], drainage: &mut [u32])
    requires by_index { (L : Land) × (r : List ℕ) × Ordered L r (length water.now) order.now receivers.now }
    requires water_in_bounds { length water.now ≤ length drainage.old }
    ensures { Drained (length water.now) water.now order.now receivers.now drainage.old
        drainage.new }
{
    own_water(water, drainage);
    give_all(order, receivers, drainage, water.len());
}

// The same for n cells whose water is the section of a record that starts at index `from`, two bytes a cell.
pub fn drain_section(
    bytes: &[u8],
    from: usize,
    n: usize,
    order: &[u16],
    receivers: &[u16],
    drainage: &mut [u32],
)
    requires by_index { (L : Land) × (r : List ℕ) × Ordered L r n order.now receivers.now }
    requires n_in_bounds { (from + 2 * n ≤ length bytes.now) × (n ≤ length drainage.old) }
    ensures { Drained n (numbers_at 2 bytes.now from n) order.now receivers.now drainage.old
        drainage.new }
{
    section_water(bytes, from, n, drainage);
    give_all(order, receivers, drainage, n);
}
