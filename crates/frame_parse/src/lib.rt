// A string of bytes, read: refusals 2 to 5, a clock, or a call with its request. Nothing here looks at a
// panel but for its number of outputs.
#![tactic(auto)]

ghost use Rattle.std.specs.Prelude.{◌≡◌};
ghost use Rattle.lighting_frames.specs.Paper.Frames.{call_of, called, clock_of, parse_by, parse};

use lighting_frames::{Action, Call, Frame, Kind};
use lighting_outputs::{Parameters, Refusal};

#[tactic(auto, unfolding(lighting_frames::specs::Paper::Frames::call_of))]
fn call_of(parameters: Parameters, action: Action, b: &[u8]) -> Call
    ensures { result ≡ call_of parameters action b.now }
{
    Call {
        station: frame_field::byte_at(b, 1),
        number: frame_field::word32_at(b, 2),
        time: frame_field::word48_at(b, 6),
        output: frame_field::byte_at(b, 12),
        request: frame_request::request_of(parameters, action, b),
    }
}

// A station that the set has not, or number 0, is refusal 4; an output that is not in the table of c is 5.
#[tactic(auto, using(lighting_levels::proofs::Choosing::ifs), unfolding(lighting_frames::specs::Paper::Frames::called))]
fn called(parameters: Parameters, c: usize, call: Call) -> Result<Frame, Refusal>
    ensures { result ≡ called parameters c call }
{
    if parameters.stations <= u32::from(call.station) || call.number == 0 {
        Err(Refusal::UnknownStation)
    } else if usize::from(call.output) < c {
        Ok(Frame::Calls(call))
    } else {
        Err(Refusal::UnknownOutput)
    }
}

#[tactic(auto, unfolding(lighting_frames::specs::Paper::Frames::clock_of))]
fn clock_of(b: &[u8]) -> Result<Frame, Refusal>
    ensures { result ≡ clock_of b.now }
{
    Ok(Frame::Clock(frame_field::word48_at(b, 1)))
}

// No byte, or an unknown kind, is refusal 2, and another length than l, which the kind fixes, is 3.
#[tactic(auto, using(lighting_frames::proofs::Laws::parse_by_on, lighting_levels::proofs::Choosing::ifs), unfolding(lighting_frames::specs::Paper::Frames::parse_by))]
fn parse_by(
    parameters: Parameters,
    c: usize,
    l: u32,
    kind: Kind,
    b: &[u8],
) -> Result<Frame, Refusal>
    ensures { result ≡ parse_by parameters c l kind b.now }
{
    match kind {
        Kind::NoKind => Err(Refusal::UnknownKind),
        Kind::ClockKind if b.len() == l as usize => clock_of(b),
        Kind::CallKind(action) if b.len() == l as usize => called(
            parameters,
            c,
            call_of(parameters, action, b),
        ),
        Kind::ClockKind | Kind::CallKind(_) => Err(Refusal::WrongLength),
    }
}

#[tactic(auto, unfolding(lighting_frames::specs::Paper::Frames::parse))]
pub fn parse(parameters: Parameters, c: usize, b: &[u8]) -> Result<Frame, Refusal>
    ensures { result ≡ parse parameters c b.now }
{
    let row = frame_kinds::kind_row(frame_field::byte_at(b, 0));
    parse_by(parameters, c, row.length, row.kind, b)
}
