// A command, read: an operation with its fields and its duration as a request, or the refusal that the first
// field out of range meets.
#![tactic(auto)]

ghost use Rattle.std.specs.Prelude.{Ok, ◌≡◌};
ghost use Rattle.lighting_outputs.specs.Paper.Answers.{level_refusal};
ghost use Rattle.lighting_outputs.specs.Paper.Requests.{level_field_refusal, amount_field_refusal, time_field_refusal, first_refusal, fields_refusal, command_lasting, command_with_duration, command_request_by, command_of, plain_duration, command_request};
ghost use Rattle.lighting_frames.specs.Paper.Frames.{tagged_request};

use lighting_frames::TaggedCommand;
use lighting_outputs::{
    Asked, Command, Duration, Operation, OperationFields, OutputRequest, Parameters, Refusal,
};

// ---- the ranges: the refusal that a field meets, if it is out of its range

#[tactic(auto, unfolding(lighting_outputs::specs::Paper::Requests::level_field_refusal))]
fn level_field_refusal(x: Option<f32>) -> Option<Refusal>
    ensures { result ≡ level_field_refusal x }
{
    match x {
        Some(real) if number_level::level_of_real(real).is_none() => Some(Refusal::RealOutOfRange),
        _ => None,
    }
}

// A rate or a step.
// Stays: beside the one of a level. One function with a closure for the conversion would be no plainer: its
// clause would have to say by `F.post` what the two definitions say by name.
#[tactic(auto, unfolding(lighting_outputs::specs::Paper::Requests::amount_field_refusal))]
fn amount_field_refusal(x: Option<f32>) -> Option<Refusal>
    ensures { result ≡ amount_field_refusal x }
{
    match x {
        Some(real) if number_level::amount_of_real(real).is_none() => Some(Refusal::RealOutOfRange),
        _ => None,
    }
}

#[tactic(auto, using(lighting_levels::proofs::Choosing::ifs, lighting_outputs::proofs::Laws::time_field_refusal_on), unfolding(lighting_outputs::specs::Paper::Requests::time_field_refusal))]
fn time_field_refusal(parameters: Parameters, x: Option<u32>) -> Option<Refusal>
    ensures { result ≡ time_field_refusal parameters x }
{
    match x {
        Some(l) if !number_ranges::is_fade_time(parameters, l) => Some(Refusal::WholeOutOfRange),
        _ => None,
    }
}

// Fields are judged from left to right.
#[tactic(auto, using(crate::proofs::First::from_left))]
pub fn fields_refusal(parameters: Parameters, f: OperationFields) -> Option<Refusal>
    ensures { result ≡ fields_refusal parameters f }
{
    level_field_refusal(f.level)
        .or(amount_field_refusal(f.rate))
        .or(amount_field_refusal(f.step))
        .or(time_field_refusal(parameters, f.fade))
}

// ---- the request

fn commanded(operation: Operation, duration: Duration) -> Asked
    ensures { result ≡ Ok (OutputRequest.Commands (record { operation = operation; duration = duration })) }
{
    Ok(OutputRequest::Commands(Command {
        operation,
        duration,
    }))
}

// An operation with a duration that is there: 0 cancels, 100 to the longest sets.
#[tactic(auto, using(lighting_levels::proofs::Choosing::ifs), unfolding(lighting_outputs::specs::Paper::Requests::command_lasting))]
fn command_lasting(parameters: Parameters, operation: Operation, d: u32) -> Asked
    ensures { result ≡ command_lasting parameters operation d }
{
    if d == 0 {
        commanded(operation, Duration::Cancels)
    } else if number_ranges::is_duration(parameters, d) {
        commanded(operation, Duration::Lasts(d))
    } else {
        Err(Refusal::WholeOutOfRange)
    }
}

#[tactic(auto, unfolding(lighting_outputs::specs::Paper::Requests::command_with_duration))]
fn command_with_duration(
    parameters: Parameters,
    operation: Operation,
    duration: Option<u32>,
) -> Asked
    ensures { result ≡ command_with_duration parameters operation duration }
{
    match duration {
        Some(d) => command_lasting(parameters, operation, d),
        None => commanded(operation, Duration::Omitted),
    }
}

// In whatever form a command came, the duration comes after the operation's own fields.
#[tactic(auto, unfolding(lighting_outputs::specs::Paper::Requests::command_of, lighting_outputs::specs::Paper::Requests::command_request_by))]
pub fn command_of(parameters: Parameters, operation: Operation, duration: Option<u32>) -> Asked
    ensures { result ≡ command_of parameters operation duration }
{
    match fields_refusal(parameters, command_operations::fields_of(operation)) {
        Some(refusal) => Err(refusal),
        None => command_with_duration(parameters, operation, duration),
    }
}

// The kinds 10 to 1A: FFFFFFFF means absent.
#[tactic(auto, using(lighting_levels::proofs::Choosing::ifs), unfolding(lighting_outputs::specs::Paper::Requests::plain_duration))]
fn plain_duration(d: u32) -> Option<u32>
    ensures { result ≡ plain_duration d }
{
    if d == 0xFFFF_FFFF { None } else { Some(d) }
}

#[tactic(auto, unfolding(lighting_outputs::specs::Paper::Requests::command_request))]
pub fn command_request(parameters: Parameters, operation: Operation, d: u32) -> Asked
    ensures { result ≡ command_request parameters operation d }
{
    command_of(parameters, operation, plain_duration(d))
}

// Kind 1B: an absent duration is a missing field, and FFFFFFFF is out of range.
#[tactic(auto, unfolding(lighting_frames::specs::Paper::Frames::tagged_request))]
pub fn tagged_request(parameters: Parameters, reading: Result<TaggedCommand, Refusal>) -> Asked
    ensures { result ≡ tagged_request parameters reading }
{
    let TaggedCommand {
        operation,
        duration,
    } = reading?;
    command_of(parameters, operation, duration)
}
