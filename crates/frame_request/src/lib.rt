// What a frame asks for: the kind gives the action, and each action reads what it adds to the 13 common
// bytes.
#![tactic(auto)]

ghost use Rattle.std.specs.Prelude.{◌≡◌};
ghost use Rattle.lighting_levels.specs.Paper.Level.{real};
ghost use Rattle.lighting_levels.specs.Paper.Field.{big_endian};
ghost use Rattle.lighting_outputs.specs.Paper.Answers.{as_request};
ghost use Rattle.lighting_outputs.specs.Paper.Properties.{property_of, change_of};
ghost use Rattle.lighting_outputs.specs.Paper.Requests.{write_level, write_of, empty_of, command_request};
ghost use Rattle.lighting_frames.specs.Paper.Frames.{request_of};

use command_parse::{command_request, tagged_request};
use frame_field::{byte_at, from_on, word32_at};
use lighting_frames::Action;
use lighting_outputs::{
    Asked, Operation, OutputRequest, PanelRequest, Parameters, Refusal, Request, as_request,
};
use property_write::property_of;
use property_write::values::slot_of;

// ---- kinds 02 to 05

#[tactic(auto, unfolding(lighting_outputs::specs::Paper::Requests::write_level))]
fn write_level(i: u8, v: Option<u32>) -> Asked
    ensures { result ≡ write_level i v }
{
    let level = v.ok_or(Refusal::RealOutOfRange)?;
    Ok(OutputRequest::Write { slot: i, level })
}

#[tactic(auto, using(lighting_levels::proofs::Choosing::ifs), unfolding(lighting_outputs::specs::Paper::Requests::write_of))]
fn write_of(n: u8, x: u32) -> Asked
    ensures { result ≡ write_of n x }
{
    if number_ranges::is_priority(u32::from(n)) {
        write_level(slot_of(u32::from(n)), number_level::level_of(x))
    } else {
        Err(Refusal::BadPriority)
    }
}

#[tactic(auto, using(lighting_levels::proofs::Choosing::ifs), unfolding(lighting_outputs::specs::Paper::Requests::empty_of))]
fn empty_of(p: u8) -> Asked
    ensures { result ≡ empty_of p }
{
    if number_ranges::is_priority(u32::from(p)) {
        Ok(OutputRequest::Empty {
            slot: slot_of(u32::from(p)),
        })
    } else {
        Err(Refusal::BadPriority)
    }
}

// ---- the request

fn change_of(parameters: Parameters, n: u8, x: u32) -> Asked
    ensures { result ≡ change_of parameters (property_of n) x }
{
    property_write::change_of(parameters, property_of(n), x)
}

// A command whose duration stands at a place of the frame: its last field.
fn command_at(parameters: Parameters, operation: Operation, b: &[u8], at: usize) -> Request
    ensures { result ≡ as_request (command_request parameters operation (big_endian 4 b.now at)) }
{
    as_request(command_request(parameters, operation, word32_at(b, at)))
}

fn real_at(b: &[u8], at: usize) -> f32
    ensures { result ≡ real (big_endian 4 b.now at) }
{
    number_level::real_from(word32_at(b, at))
}

#[tactic(auto, unfolding(lighting_frames::specs::Paper::Frames::request_of))]
pub fn request_of(parameters: Parameters, action: Action, b: &[u8]) -> Request
    ensures { result ≡ request_of parameters action b.now }
{
    match action {
        Action::WritesLevel => as_request(write_of(byte_at(b, 13), word32_at(b, 14))),
        Action::EmptiesSlot => as_request(empty_of(byte_at(b, 13))),
        Action::WritesProperty => {
            as_request(change_of(parameters, byte_at(b, 13), word32_at(b, 14)))
        }
        Action::ReadsProperty => {
            Ok(PanelRequest::ToOutput(OutputRequest::Read(property_of(byte_at(b, 13)))))
        }
        Action::Stops => command_at(parameters, Operation::Stop, b, 13),
        Action::FadesTo => command_at(parameters, Operation::FadeTo(real_at(b, 13)), b, 17),
        Action::FadesToOver => command_at(
            parameters,
            Operation::FadeToOver(real_at(b, 13), word32_at(b, 17)),
            b,
            21,
        ),
        Action::RampsTo => command_at(parameters, Operation::RampTo(real_at(b, 13)), b, 17),
        Action::RampsToAtRate => command_at(
            parameters,
            Operation::RampToAtRate(real_at(b, 13), real_at(b, 17)),
            b,
            21,
        ),
        Action::StepsUp => command_at(parameters, Operation::StepUp, b, 13),
        Action::StepsDown => command_at(parameters, Operation::StepDown, b, 13),
        Action::StepsUpBy => command_at(parameters, Operation::StepUpBy(real_at(b, 13)), b, 17),
        Action::StepsDownBy => command_at(parameters, Operation::StepDownBy(real_at(b, 13)), b, 17),
        Action::GoesTo => command_at(parameters, Operation::Goto(real_at(b, 13)), b, 17),
        Action::Relinquishes => command_at(parameters, Operation::Relinquish, b, 13),
        Action::CommandsTagged => as_request(tagged_request(
            parameters,
            tag_reading::read_body(from_on(b, 13)),
        )),
    }
}
