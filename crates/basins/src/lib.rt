// Rule 2, basins: the singular cell that each cell's first receivers lead to, the number of each cell's basin, and its label.
// Entries jump: each cell's entry is replaced by its entry's entry, until all entries lead far enough or none moves.
#![tactic(auto)]

ghost use Rattle.std.specs.Prelude.{◌≡◌, ◌+◌, ◌<◌, ◌≤◌, eqb, length};
ghost use Rattle.basins.specs.Jumps.{any_moved, FirstReceivers, jumped, one_if, singular_below, Within};
ghost use Rattle.basins.specs.Labels.{label_by};
ghost use Rattle.basins.specs.Numbering.{BasinsNumbered};
ghost use Rattle.lists.specs.Lists.{at, filled};
ghost use Rattle.rules.specs.FirstWays.{singular_of};
ghost use Rattle.rules.specs.Ground.{is_outlet};
ghost use Rattle.rules.specs.Land.{Land};

use kinds::{Basin, Cell};
use rules::is_outlet;

// One round: each entry jumps to its entry's entry. Says whether any moved.
fn jump(entries: &mut [u16], n: usize) -> bool
    requires { (n ≤ length entries.old) × Within n entries.old }
    ensures { (entries.new ≡ jumped n entries.old) × (result ≡ any_moved n entries.old) }
{
    let mut moved = false;
    for c in 0..n {
        let d = entries[c];
        let e = entries[usize::from(d)];
        entries[c] = e;
        moved |= d != e;
    }
    moved
}

// From first receivers to the singular cells that they lead to, in place. After each round entries lead twice as far.
fn singular_cells(entries: &mut [u16], n: usize)
    requires { (L : Land) × FirstReceivers L n entries.old }
    ensures { (L : Land) → FirstReceivers L n entries.old → entries.new ≡ filled (singular_of L) n entries.old }
{
    let mut steps = 1;
    // Stays: the steps double, and a range counts by one.
    while steps < n {
        let moved = jump(entries, n);
        if !moved {
            return;
        }
        steps += steps;
    }
}

// The number of the next basin after cell c: one more where c is singular, that is its own receiver.
fn next_number(number: Basin, receiver: Cell, c: Cell) -> Basin
    requires { number.0 < 65535 }
    ensures { result.0 ≡ number.0 + one_if (eqb receiver.0 c.0) }
{
    Basin(number.0 + u16::from(receiver == c))
}

// For each cell, how many cells of lesser number are singular: at a singular cell, the number of its basin.
fn number_basins(receivers: &[u16], n: usize, numbers: &mut [u16])
    requires { (n ≤ length receivers.now) × (n ≤ length numbers.old) × (n ≤ 4096) }
    ensures { numbers.new ≡ filled (singular_below receivers.now) n numbers.old }
{
    let mut number = Basin(0);
    for c in 0..n {
        numbers[c] = number.0;
        number = next_number(number, Cell(receivers[c]), Cell(c as u16));
    }
}

// The label of a cell, by its singular cell: all outlet basins have one, the count of cells, and any other has its basin's number.
fn label_of(all: Basin, outlet: bool, number: Basin) -> Basin
    ensures { result.0 ≡ label_by all.0 outlet number.0 }
{
    if outlet { all } else { number }
}

// Each entry, a cell, is replaced by the number that this cell has in a list; and each cell gets its label.
fn look_up(numbers: &[u16], marks: &[u8], n: usize, entries: &mut [u16], labels: &mut [u16])
    requires n_in_bounds { (n ≤ length numbers.now) × (n ≤ length entries.old) × Within n entries.old }
    requires n_in_bounds_2 { (n ≤ length marks.now) × (n ≤ length labels.old) × (n ≤ 4096) }
    ensures entries_after { entries.new ≡ filled (λ c. at numbers.now (at entries.old c)) n entries.old }
    ensures labels_after { labels.new
        ≡ filled (λ c. label_by n (is_outlet marks.now (at entries.old c)) (at numbers.now (at entries.old c)))
        n labels.old }
{
    let all = Basin(n as u16);
    for c in 0..n {
        let d = usize::from(entries[c]);
        let number = numbers[d];
        entries[c] = number;
        labels[c] = label_of(all, is_outlet(marks[d]), Basin(number)).0;
    }
}

// From first receivers to basin numbers, in place, and labels that tell the nodes of rule 4 apart. Work space: 8 KB.
pub fn basin_numbers(n: usize, marks: &[u8], entries: &mut [u16], labels: &mut [u16])
    requires first_receivers { (L : Land) × FirstReceivers L n entries.old }
    requires n_in_bounds { (n ≤ length marks.now) × (n ≤ length labels.old) }
    ensures { BasinsNumbered n marks.now entries.old labels.old entries.new labels.new }
{
    let mut numbers = [0u16; 4096];
    number_basins(entries, n, &mut numbers);
    singular_cells(entries, n);
    look_up(&numbers, marks, n, entries, labels);
}
