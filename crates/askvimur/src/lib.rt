// The console's call: from a ground record to its network record, with document 01's 4 neighbours, carved
// (include/askvimur.h).
#![tactic(auto)]

ghost use Rattle.askvimur.specs.Answer.{Called, CalledFromC};

use grid::Neighbours;
use ground::Judged;
use network_record::{answer_for_c, record_over};
use rules::Manner;

// The network record of a ground record, at the start of a lent one. A refusal alters nothing, and bytes past the record stay.
pub fn record_call(ground: &[u8], network: &mut [u8]) -> Judged
    ensures { Called ground.now network.old result network.new }
{
    record_over(Neighbours::Four, Manner::Carve, ground, network)
}

// The same for C: the answer is the length written, 43 to 61,468, or for a refused record its number times 65,536 plus its place.
#[unsafe(no_mangle)]
pub extern "C" fn askvimur_network(ground: &[u8], network: &mut [u8]) -> u32
    ensures { CalledFromC ground.now network.old result network.new }
{
    answer_for_c(record_call(ground, network))
}
