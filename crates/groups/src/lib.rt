// Groups of basins (rule 4), and of cells (W-202), joined one edge at a time. What is found and hung is of any one kind of number; each
// function that others may call takes one kind, basins or cells.
// A list of groups is work space: it has an entry for each basin or cell, and each entry names one no greater. Following the entries
// ends at the root of the group. The contracts say the roots, which are all that any function reads from such a list; how an
// entry leads to its root is left open, so that ways may be shortened.
#![tactic(auto)]

ghost use Rattle.std.specs.Prelude.{cond, ◌≡◌, ◌<◌, ◌≤◌, length};
ghost use Rattle.groups.specs.Groups.{Down, Joined, Root, root_of, SameGroups, two_groups};
ghost use Rattle.lists.specs.Lists.{upto};

use kinds::{Basin, Cell, Numbered};
use lists::fill;

// Each becomes a group of its own.
pub fn alone(group: &mut [u16])
    requires { length group.old ≤ 65536 }
    ensures { group.new ≡ upto (length group.old) }
{
    let n = group.len();
    fill(group, n, |b| b as u16);
}

// The root of l's group. Each entry on the way is hung one step higher.
fn find<L: Numbered>(group: &mut [u16], l: L) -> L
    requires { (L.number l < length group.old) × Down group.old }
    ensures { (L.number result ≡ root_of group.old (L.number l)) × SameGroups group.old group.new }
{
    let mut x = l.number();
    loop {
        let i = usize::from(x);
        let up = group[i];
        if up == x {
            return L::of(x);
        }
        let top = group[usize::from(up)];
        group[i] = top;
        x = top;
    }
}

// Two roots become one group: the greater is hung under the lesser.
fn hang<L: Numbered>(group: &mut [u16], p: L, q: L)
    requires { Down group.old × Root group.old (L.number p) × Root group.old (L.number q) }
    ensures { Joined group.old (L.number p) (L.number q) group.new }
{
    let a = p.number();
    let b = q.number();
    group[usize::from(a.max(b))] = a.min(b);
}

// The groups of a and b become one. Gives whether they were two.
pub fn unite(group: &mut [u16], a: Basin, b: Basin) -> bool
    requires { (a.0 < length group.old) × (b.0 < length group.old) × Down group.old }
    ensures { (cond result 1 0 ≡ two_groups group.old a.0 b.0) × Joined group.old a.0 b.0 group.new }
{
    let p = find(group, a);
    let q = find(group, b);
    if p == q {
        return false;
    }
    hang(group, p, q);
    true
}

// The next four are the same for cells and for basins.
// Stays: group functions take their own kind alone, which is a rule of the project (tests/gate/kinds tries it): a generic one would take all.

// The root of a cell's group. Each entry on the way is hung one step higher.
pub fn find_cell(group: &mut [u16], c: Cell) -> Cell
    requires { (c.0 < length group.old) × Down group.old }
    ensures { (result.0 ≡ root_of group.old c.0) × SameGroups group.old group.new }
{
    find(group, c)
}

// The root of a basin's group.
pub fn find_basin(group: &mut [u16], b: Basin) -> Basin
    requires { (b.0 < length group.old) × Down group.old }
    ensures { (result.0 ≡ root_of group.old b.0) × SameGroups group.old group.new }
{
    find(group, b)
}

// The groups of two cells that are roots become one: the greater is hung under the lesser.
pub fn hang_cells(group: &mut [u16], p: Cell, q: Cell)
    requires { Down group.old × Root group.old p.0 × Root group.old q.0 }
    ensures { Joined group.old p.0 q.0 group.new }
{
    hang(group, p, q);
}

// The groups of two basins that are roots become one.
pub fn hang_basins(group: &mut [u16], p: Basin, q: Basin)
    requires { Down group.old × Root group.old p.0 × Root group.old q.0 }
    ensures { Joined group.old p.0 q.0 group.new }
{
    hang(group, p, q);
}
