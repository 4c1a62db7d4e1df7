// How a frame is judged by its station's record; the counts of a panel, and a station's record rule. One
// record at a time, by value.
#![tactic(auto)]

ghost use Rattle.std.specs.Prelude.{◌≡◌};
ghost use Rattle.lighting_frames.specs.Paper.Stations.{station_sound};
ghost use Rattle.lighting_frames.specs.Paper.Copies.{same_bytes, retransmission_or_conflict};
ghost use Rattle.lighting_panel.specs.Paper.Panel.{counts_sound};
ghost use Rattle.lighting_panel.specs.Engine.Judging.{restored, judged_by_number, station_of, judged_by_station};

use lighting_frames::{Call, Frame, Station, Verdict};
use lighting_outputs::{Parameters, Refusal};

// ---- the counts, and a station's record rule

// As many output records and as many station records as the set has: else it is refusal 1.
#[tactic(auto, using(lighting_levels::proofs::Choosing::ifs), unfolding(lighting_panel::specs::Paper::Panel::counts_sound))]
pub fn counts_sound(parameters: Parameters, outputs: usize, stations: usize) -> bool
    ensures { result ≡ counts_sound parameters outputs stations }
{
    outputs == parameters.outputs as usize && stations == parameters.stations as usize
}

// A frame that is kept is a call's.
#[tactic(auto, using(lighting_levels::proofs::Choosing::ifs), unfolding(lighting_frames::specs::Paper::Stations::station_sound, lighting_levels::specs::Paper::Field::byte_at))]
pub fn station_sound(k: Station) -> bool
    ensures { result ≡ station_sound k }
{
    k.number == 0 || frame_kinds::is_call(k.frame[0])
}

// ---- a frame judged by its station's record

// The station's last number: the same bytes are a copy, which gets the last answer, and others refusal 6.
#[tactic(auto, using(lighting_levels::proofs::Choosing::ifs), unfolding(lighting_frames::specs::Paper::Copies::retransmission_or_conflict))]
fn retransmission_or_conflict(k: Station, b: &[u8]) -> Result<Verdict, Refusal>
    ensures { result ≡ retransmission_or_conflict (same_bytes b.now (restored k.frame)) k.answer }
{
    if station_frame::same_frame(b, k.frame) {
        Ok(Verdict::Copied(k.answer))
    } else {
        Err(Refusal::OtherBytes)
    }
}

// The number is judged before the time: a late copy is a copy.
#[tactic(auto, using(lighting_levels::proofs::Choosing::ifs), unfolding(lighting_panel::specs::Engine::Judging::judged_by_number))]
fn judge_by_number(at: u64, k: Station, b: &[u8], call: Call) -> Result<Verdict, Refusal>
    ensures { result ≡ judged_by_number at k (same_bytes b.now (restored k.frame)) call }
{
    if call.number == k.number {
        retransmission_or_conflict(k, b)
    } else if call.number < k.number {
        Err(Refusal::PastNumber)
    } else if call.time < at {
        Err(Refusal::PastTime)
    } else {
        Ok(Verdict::Arrives(call))
    }
}

#[tactic(auto, unfolding(lighting_panel::specs::Engine::Judging::station_of))]
pub fn station_of(f: Result<Frame, Refusal>) -> u8
    ensures { result ≡ station_of f }
{
    match f {
        Ok(Frame::Calls(call)) => call.station,
        Ok(Frame::Clock(_)) | Err(_) => 0,
    }
}

// What is to be done with the frame f of bytes b, whose station's record is k.
#[tactic(auto, using(lighting_levels::proofs::Choosing::ifs, lighting_panel::proofs::Laws::judged_by_record_on), unfolding(lighting_panel::specs::Engine::Judging::judged_by_record, lighting_panel::specs::Engine::Judging::judged_by_station))]
pub fn judge_by_station(
    at: u64,
    k: Station,
    b: &[u8],
    f: Result<Frame, Refusal>,
) -> Result<Verdict, Refusal>
    ensures { result ≡ judged_by_station at k b.now f }
{
    match f? {
        Frame::Clock(t) if t < at => Err(Refusal::PastTime),
        Frame::Clock(t) => Ok(Verdict::Clocked(t)),
        Frame::Calls(call) => judge_by_number(at, k, b, call),
    }
}
