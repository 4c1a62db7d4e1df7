// The lighting operations: their numbers, and the fields that each has.
#![tactic(auto)]

ghost use Rattle.std.specs.Prelude.{◌≡◌};
ghost use Rattle.lighting_outputs.specs.Paper.Operations.{operation_number, no_fields, level_alone, step_alone, fields_of};

use lighting_outputs::{Operation, OperationFields};

// The operation's kind, less 10.
#[tactic(auto, unfolding(lighting_outputs::specs::Paper::Operations::operation_number))]
pub fn operation_number(k: Operation) -> u32
    ensures { result ≡ operation_number k }
{
    match k {
        Operation::Stop => 0,
        Operation::FadeTo(_) => 1,
        Operation::FadeToOver(_, _) => 2,
        Operation::RampTo(_) => 3,
        Operation::RampToAtRate(_, _) => 4,
        Operation::StepUp => 5,
        Operation::StepDown => 6,
        Operation::StepUpBy(_) => 7,
        Operation::StepDownBy(_) => 8,
        Operation::Goto(_) => 9,
        Operation::Relinquish => 10,
    }
}

fn no_fields() -> OperationFields
    ensures { result ≡ no_fields }
{
    OperationFields {
        level: None,
        rate: None,
        step: None,
        fade: None,
    }
}

fn level_alone(x: f32) -> OperationFields
    ensures { result ≡ level_alone x }
{
    OperationFields {
        level: Some(x),
        ..no_fields()
    }
}

fn step_alone(x: f32) -> OperationFields
    ensures { result ≡ step_alone x }
{
    OperationFields {
        step: Some(x),
        ..no_fields()
    }
}

// Level, rate, step and fade time, each there or not: also where a setting is used in its place it is not
// there.
#[tactic(auto, unfolding(lighting_outputs::specs::Paper::Operations::fields_of))]
pub fn fields_of(k: Operation) -> OperationFields
    ensures { result ≡ fields_of k }
{
    match k {
        Operation::Stop | Operation::StepUp | Operation::StepDown | Operation::Relinquish =>
            no_fields(),
        Operation::FadeTo(x) | Operation::RampTo(x) | Operation::Goto(x) => level_alone(x),
        Operation::StepUpBy(x) | Operation::StepDownBy(x) => step_alone(x),
        Operation::FadeToOver(x, l) => OperationFields {
            fade: Some(l),
            ..level_alone(x)
        },
        Operation::RampToAtRate(x, rate) => OperationFields {
            rate: Some(rate),
            ..level_alone(x)
        },
    }
}
