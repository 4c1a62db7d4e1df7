// A command in BACnet's own tagging, read: its form, which refusals 14 and 15 judge. Any string of bytes may
// stand for a body, also one that is shorter than the 18 bytes that a frame carries.
#![tactic(auto)]

mod fields;

ghost use Rattle.std.specs.Prelude.{◌≡◌};
ghost use Rattle.lighting_levels.specs.Paper.Level.{real};
ghost use Rattle.lighting_frames.specs.Paper.Tags.{listed, sizes, body_fields, zero_beyond, holds_at_most, well_tagged, held_by, operation_of, time_of, both_or_neither, fewest, own_tags, read_fields, read_body};

use lighting_frames::{MOST_TAGGED, TagContent, TagFields, TaggedCommand};
use lighting_outputs::{Operation, Refusal};

// ---- refusal 14

#[tactic(auto, unfolding(lighting_frames::specs::Paper::Tags::sizes))]
fn sizes_of(f: TagFields) -> usize
    ensures { result ≡ sizes (listed f) }
{
    tag_fields::field_size(f.operation)
        + tag_fields::field_size(f.level)
        + tag_fields::field_size(f.rate)
        + tag_fields::field_size(f.step)
        + tag_fields::field_size(f.fade)
        + tag_fields::field_size(f.duration)
}

// Each byte beyond the L.
fn zero_beyond(body: &[u8]) -> bool
    ensures { result ≡ zero_beyond body.now }
{
    let length = usize::from(frame_field::byte_at(body, 0));
    (1 + length..1 + MOST_TAGGED).all(|i| frame_field::byte_at(body, i) == 0)
}

#[tactic(auto, unfolding(lighting_frames::specs::Paper::Tags::holds_at_most))]
fn holds_at_most(most: u32, field: Option<TagContent>) -> bool
    ensures { result ≡ holds_at_most most field }
{
    field.is_none_or(|content| content.value <= most)
}

// The fields, read once, come with the body. If they do not use up the L bytes, something between them is no
// field in its place.
#[tactic(auto, using(lighting_levels::proofs::Choosing::ifs), unfolding(lighting_frames::specs::Paper::Tags::well_tagged))]
fn well_tagged(body: &[u8], f: TagFields) -> bool
    requires { f ≡ body_fields body.now }
    ensures { result ≡ well_tagged body.now }
{
    let length = frame_field::byte_at(body, 0);
    number_ranges::is_within(2, MOST_TAGGED as u32, u32::from(length))
        && sizes_of(f) == usize::from(length)
        && zero_beyond(body)
        && holds_at_most(10, f.operation)
}

// ---- the operation and the duration

fn real_in(field: Option<TagContent>) -> f32
    ensures { result ≡ real (held_by field) }
{
    number_level::real_from(tag_fields::held_by(field))
}

// By the number of tag 0. None that is taken is above 10.
#[tactic(auto, using(crate::proofs::Judging::numbered, crate::proofs::Judging::unnumbered))]
fn operation_of(f: TagFields) -> Operation
    ensures { result ≡ operation_of f }
{
    match tag_fields::held_by(f.operation) {
        0 => Operation::Stop,
        1 => Operation::FadeTo(real_in(f.level)),
        2 => Operation::FadeToOver(real_in(f.level), tag_fields::held_by(f.fade)),
        3 => Operation::RampTo(real_in(f.level)),
        4 => Operation::RampToAtRate(real_in(f.level), real_in(f.rate)),
        5 => Operation::StepUp,
        6 => Operation::StepDown,
        7 => Operation::StepUpBy(real_in(f.step)),
        8 => Operation::StepDownBy(real_in(f.step)),
        9 => Operation::Goto(real_in(f.level)),
        10 => Operation::Relinquish,
        _ => Operation::Stop,
    }
}

#[tactic(auto, unfolding(lighting_frames::specs::Paper::Tags::time_of))]
fn time_of(field: Option<TagContent>) -> Option<u32>
    ensures { result ≡ time_of field }
{
    field.map(|content| content.value)
}

// ---- refusal 15

#[tactic(auto, unfolding(lighting_frames::specs::Paper::Tags::both_or_neither))]
fn both_or_neither(own: Option<TagContent>, field: Option<TagContent>) -> bool
    ensures { result ≡ both_or_neither own field }
{
    own.is_some() == field.is_some()
}

#[tactic(auto, unfolding(lighting_frames::specs::Paper::Tags::fewest))]
fn is_fewest(field: Option<TagContent>) -> bool
    ensures { result ≡ fewest field }
{
    field.is_none_or(|content| content.count == tag_fields::fewest_octets(content.value))
}

// `own` are the fields that the operation has.
#[tactic(auto, using(lighting_levels::proofs::Choosing::ifs), unfolding(lighting_frames::specs::Paper::Tags::own_tags))]
fn own_tags(own: TagFields, f: TagFields) -> bool
    ensures { result ≡ own_tags own f }
{
    both_or_neither(own.operation, f.operation)
        && both_or_neither(own.level, f.level)
        && both_or_neither(own.rate, f.rate)
        && both_or_neither(own.step, f.step)
        && both_or_neither(own.fade, f.fade)
        && is_fewest(f.fade)
        && is_fewest(f.duration)
}

// ---- the reading

#[tactic(auto, using(lighting_levels::proofs::Choosing::ifs), unfolding(lighting_frames::specs::Paper::Tags::read_fields))]
fn read_fields(f: TagFields) -> Result<TaggedCommand, Refusal>
    ensures { result ≡ read_fields f }
{
    let operation = operation_of(f);
    let duration = time_of(f.duration);
    if own_tags(tag_fields::tags_of(operation, duration), f) {
        Ok(TaggedCommand {
            operation,
            duration,
        })
    } else {
        Err(Refusal::BadFields)
    }
}

#[tactic(auto, using(lighting_levels::proofs::Choosing::ifs), unfolding(lighting_frames::specs::Paper::Tags::read_body))]
pub fn read_body(body: &[u8]) -> Result<TaggedCommand, Refusal>
    ensures { result ≡ read_body body.now }
{
    let f = fields::body_fields(body);
    if well_tagged(body, f) {
        read_fields(f)
    } else {
        Err(Refusal::BadTags)
    }
}
