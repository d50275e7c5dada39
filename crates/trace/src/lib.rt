// Document 01, "Trace": along a list of receivers from anybody, from a cell, with a budget of steps.
//
// The work is bounded by the list and not by the budget: at most three moves for each entry. A walk of as many moves as the list has
// entries is on a ring for good, and what is left of the budget counts modulo the ring's length.
#![tactic(auto)]

ghost use Rattle.std.specs.Prelude.{◌≡◌, ◌<◌, ◌≤◌, length};
ghost use Rattle.lists.specs.Lists.{at, repeat};
ghost use Rattle.rules.specs.Trace.{trace_from, trace as Rules·trace};
ghost use Rattle.trace.specs.Answer.{answer_of};
ghost use Rattle.trace.specs.Ring.{OnRing, ring_length, Stays};

use kinds::Cell;
use std::error::Error;
use std::fmt;

// Where a trace ends that is not refused.
#[derive(Clone, Copy, Debug, PartialEq, Eq)]
pub enum TraceEnd {
    // The outlet, and the steps taken.
    Outlet(Cell, u32),
    // The cell at which the budget was spent, and the steps taken.
    Stopped(Cell, u32),
}

// Why a trace is refused. specs/Answer.antt gives document 01's number and place for each case.
#[derive(Clone, Copy, Debug, PartialEq, Eq)]
pub enum TraceRefusal {
    // 2: the list has 0 or over 4,096 entries.
    BadList,
    // 8: the traced cell is not below the list's length.
    BadCell,
    // 9: the cell holding an entry that is not below the list's length.
    BadEntry(Cell),
}

impl Error for TraceRefusal {}

impl fmt::Display for TraceRefusal {
    fn fmt<W: fmt::Write>(&self, f: &mut fmt::Formatter<W>) -> fmt::Result {
        match self {
            TraceRefusal::BadList => write!(f, "the list has 0 or over 4,096 entries"),
            TraceRefusal::BadCell => write!(f, "the traced cell isn't below the list's length"),
            TraceRefusal::BadEntry(cell) => write!(
                f,
                "the trace meets an entry that isn't below the list's length, in cell {}",
                cell.0
            ),
        }
    }
}

// The trace. The list and the cell can come from anybody and are judged first; the answer is the rule's for every budget.
pub fn trace(receivers: &[u16], cell: u32, budget: u32) -> Result<TraceEnd, TraceRefusal>
    ensures { answer_of result ≡ Rules·trace receivers.now cell budget }
{
    let n = receivers.len();
    if n == 0 {
        return Err(TraceRefusal::BadList); // no entries
    }
    if 4096 < n {
        return Err(TraceRefusal::BadList); // too many
    }
    if n <= cell as usize {
        return Err(TraceRefusal::BadCell);
    }
    let start = Cell(cell as u16);
    if budget as usize <= n {
        walk(receivers, start, budget)
    } else {
        walk_on(receivers, start, budget)
    }
}

// The trace move by move, with a budget of `limit` steps.
fn walk(receivers: &[u16], start: Cell, limit: u32) -> Result<TraceEnd, TraceRefusal>
    requires { (start.0 < length receivers.now) × (limit ≤ length receivers.now) }
    ensures { answer_of result ≡ trace_from receivers.now limit 0 start.0 }
{
    let mut cell = start.0;
    let mut steps: u32 = 0;
    'steps: loop {
        let entry = receivers[cell as usize];
        let index = entry as usize;
        if receivers.len() <= index {
            return Err(TraceRefusal::BadEntry(Cell(cell)));
        }
        if entry == cell {
            return Ok(TraceEnd::Outlet(Cell(cell), steps));
        }
        if steps == limit {
            return Ok(TraceEnd::Stopped(Cell(cell), steps));
        }
        cell = entry;
        steps += 1;
    }
}

// The trace with a budget of more steps than the list has entries. One that has not ended after as many steps as entries never ends:
// it is on a ring, and stops where the rest of the budget leads to on that ring.
fn walk_on(receivers: &[u16], start: Cell, budget: u32) -> Result<TraceEnd, TraceRefusal>
    requires { (start.0 < length receivers.now) × (length receivers.now ≤ 4096) × (length receivers.now < budget) }
    ensures { answer_of result ≡ trace_from receivers.now budget 0 start.0 }
{
    let n = receivers.len() as u32;
    match walk(receivers, start, n)? {
        TraceEnd::Outlet(outlet, steps) => Ok(TraceEnd::Outlet(outlet, steps)),
        TraceEnd::Stopped(home, _) => {
            let last = cell_on_ring(receivers, home, budget - n);
            Ok(TraceEnd::Stopped(last, budget))
        }
    }
}

// The cell that is reached from a cell on a ring by so many moves: whole rounds lead back to where they started.
fn cell_on_ring(receivers: &[u16], home: Cell, moves: u32) -> Cell
    requires { OnRing receivers.now home.0 }
    ensures { result.0 ≡ repeat moves (at receivers.now) home.0 }
{
    let rest = moves % ring_length(receivers, home);
    cell_after(receivers, home, rest)
}

// How many moves lead from a cell on a ring back to it for the first time.
fn ring_length(receivers: &[u16], home: Cell) -> u32
    requires { OnRing receivers.now home.0 }
    ensures { result ≡ ring_length receivers.now home.0 }
{
    let mut cell = receivers[home.0 as usize];
    let mut more: u32 = 0;
    while cell != home.0 {
        cell = receivers[cell as usize];
        more += 1;
    }
    more + 1
}

// The cell that is reached from a cell by so many moves, no more than the list has entries.
fn cell_after(receivers: &[u16], start: Cell, moves: u32) -> Cell
    requires { Stays receivers.now start.0 × (moves ≤ length receivers.now) }
    ensures { result.0 ≡ repeat moves (at receivers.now) start.0 }
{
    let mut cell = start.0;
    for _ in 0..moves {
        cell = receivers[cell as usize];
    }
    Cell(cell)
}
