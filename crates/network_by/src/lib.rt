// The network of a tile over as many neighbours as a caller counts (document 02, W-203) and in the manner that it names (W-205): the count
// and then the manner judged before all else, and the calls from lists to lists and from record to record. specs/Counted.antt says what they answer and leave.
#![tactic(auto)]

ghost use Rattle.std.specs.Prelude.{◌≡◌, ◌≤◌};
ghost use Rattle.ground.specs.Record.{ground_of_lists};
ghost use Rattle.network_by.specs.Calls.{ListsCounted, network_answer_to, RecordCounted};
ghost use Rattle.network_by.specs.Counted.{asked_for, network_number, network_place, why_number, why_place};
ghost use Rattle.network_by.specs.ReadAnswer.{network_length};
ghost use Rattle.network_by.specs.declared.NetworkRefusal.TheVariants.{BadCount, BadManner, Ground};
ghost use Rattle.rules.specs.SixLists.{six_lists};

use grid::{Neighbours, UnknownCount};
use ground::{Refusal, Size};
use network::network_over;
use network_record::record_over;
use rules::{Manner, UnknownManner};
use std::error::Error;
use std::fmt;

// What a count and a manner ask for: 4 or 8 neighbours, carved or as a sheet.
#[derive(Clone, Copy, Debug, PartialEq, Eq)]
pub struct Asked {
    pub neighbours: Neighbours,
    pub manner: Manner,
}

// Why a call with a count and a manner is refused; `network_number` and `network_place` of specs/Counted.antt give the numbers.
#[derive(Clone, Copy, Debug, PartialEq, Eq)]
pub enum NetworkRefusal {
    // 11: the count is neither 4 nor 8.
    BadCount,
    // 12: the count is, and the manner is neither 1 nor 2.
    BadManner,
    // The tile is judged, and that refuses it.
    Ground(Refusal),
}

impl From<UnknownCount> for NetworkRefusal {
    ghost from_gives = { λ _ why. why ≡ BadCount };

    fn from(_count: UnknownCount) -> NetworkRefusal {
        NetworkRefusal::BadCount
    }
}

impl From<UnknownManner> for NetworkRefusal {
    ghost from_gives = { λ _ why. why ≡ BadManner };

    fn from(_manner: UnknownManner) -> NetworkRefusal {
        NetworkRefusal::BadManner
    }
}

impl From<Refusal> for NetworkRefusal {
    ghost from_gives = { λ r why. why ≡ Ground r };

    fn from(why: Refusal) -> NetworkRefusal {
        NetworkRefusal::Ground(why)
    }
}

impl fmt::Display for NetworkRefusal {
    fn fmt<W: fmt::Write>(&self, f: &mut fmt::Formatter<W>) -> fmt::Result {
        match self {
            NetworkRefusal::BadCount => write!(f, "the count of neighbours is neither 4 nor 8"),
            NetworkRefusal::BadManner => write!(f, "the manner is neither 1, carve, nor 2, sheet"),
            NetworkRefusal::Ground(why) => write!(f, "{}", why),
        }
    }
}

impl Error for NetworkRefusal {}

impl NetworkRefusal {
    // The number of a refusal.
    fn number(self) -> u16
        ensures { result ≡ why_number self }
    {
        match self {
            NetworkRefusal::BadCount => 11,
            NetworkRefusal::BadManner => 12,
            NetworkRefusal::Ground(why) => ground::number(Err(why)),
        }
    }

    // The place of a refusal.
    fn place(self) -> u16
        ensures { result ≡ why_place self }
    {
        match self {
            NetworkRefusal::BadCount | NetworkRefusal::BadManner => 0,
            NetworkRefusal::Ground(why) => ground::place(Err(why)),
        }
    }
}

// The answer to a call with a count and a manner: the size of the tile where it is accepted, or why it is refused.
pub type NetworkAnswer = Result<Size, NetworkRefusal>;

// What a count and a manner ask for; the count is judged first, and each whole: 65,540 is not 4, and 65,537 is not 1.
pub fn asked_for(count: u32, manner: u32) -> Result<Asked, NetworkRefusal>
    ensures { result ≡ asked_for count manner }
{
    let neighbours = Neighbours::try_from(count)?;
    let manner = Manner::try_from(manner)?;
    Ok(Asked { neighbours, manner })
}

// The number given back for an answer: 0 where the tile is accepted.
pub fn network_number(answer: NetworkAnswer) -> u16
    ensures { result ≡ network_number answer }
{
    match answer {
        Ok(_) => 0,
        Err(why) => why.number(),
    }
}

// The place given back for an answer.
pub fn network_place(answer: NetworkAnswer) -> u16
    ensures { result ≡ network_place answer }
{
    match answer {
        Ok(_) => 0,
        Err(why) => why.place(),
    }
}

// The network of a tile, from lists to lists. 11 comes first, then 12, then what `network_over` refuses. A refusal leaves every lent list as it was;
// on acceptance the entries past N stay.
pub fn network_of_lists(
    count: u32,
    manner: u32,
    width: u16,
    height: u16,
    heights: &[i32],
    marks: &[u8],
    water: &[u16],
    receivers: &mut [u16],
    basins: &mut [u16],
    order: &mut [u16],
    levels: &mut [i32],
    drainage: &mut [u32],
    wet: &mut [u8],
) -> NetworkAnswer
    ensures { let g = ground_of_lists width height heights.now marks.now water.now in
        let before =
        six_lists receivers.old basins.old order.old levels.old drainage.old
        wet.old in
        let after =
        six_lists receivers.new basins.new order.new levels.new drainage.new
        wet.new in
        ListsCounted count manner g before result after }
{
    let asked = asked_for(count, manner)?;
    let size = network_over(
        asked.neighbours,
        asked.manner,
        width,
        height,
        heights,
        marks,
        water,
        receivers,
        basins,
        order,
        levels,
        drainage,
        wet,
    )?;
    Ok(size)
}

// The network record of a ground record, at the start of a lent one. 11 comes first, then 12, then what `record_over` refuses. A refusal alters
// nothing, and bytes past the record stay.
pub fn network_of_record(
    count: u32,
    manner: u32,
    ground: &[u8],
    network: &mut [u8],
) -> NetworkAnswer
    ensures { RecordCounted count manner ground.now network.old result network.new }
{
    let asked = asked_for(count, manner)?;
    let size = record_over(asked.neighbours, asked.manner, ground, network)?;
    Ok(size)
}

// The answer as one number, for C: the length written, 43 to 61,468, or for a refusal its number times 65,536 plus its place.
pub fn answer_for_c(answer: NetworkAnswer) -> u32
    requires { network_length answer ≤ 61468 }
    ensures { result ≡ network_answer_to answer }
{
    match answer {
        Ok(size) => network_record::answer_for_c(Ok(size)),
        Err(why) => u32::from(why.number()) * 65536 + u32::from(why.place()),
    }
}
