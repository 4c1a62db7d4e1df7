// The fields of a tagged command, by value: what each holds, and how many bytes it takes.
#![tactic(auto)]

ghost use Rattle.std.specs.Prelude.{◌≡◌, ◌≤◌};
ghost use Rattle.lighting_frames.specs.Paper.Tags.{context_tag, fewest_octets, field_size, real_tag, whole_tag, tags_of, command_tags, held_by};
ghost use Rattle.lighting_outputs.specs.Paper.Operations.{duration_field};

use lighting_frames::{TagContent, TagFields};
use lighting_outputs::{Command, Duration, Operation};

// ---- one field

// The octet before the content: the tag's number, bit 3 for a context tag, and of how many octets the content
// is.
pub fn context_tag(number: u8, count: u8) -> u8
    requires { (number ≤ 5) × (count ≤ 4) }
    ensures { result ≡ context_tag number count }
{
    number * 16 + 8 + count
}

// 'Whole numbers use the fewest octets, 1 to 4'.
#[tactic(auto, using(lighting_levels::proofs::Choosing::ifs), unfolding(lighting_frames::specs::Paper::Tags::fewest_octets))]
pub fn fewest_octets(v: u32) -> u8
    ensures { result ≡ fewest_octets v }
{
    if v < 0x100 {
        1
    } else if v < 0x1_0000 {
        2
    } else if v < 0x100_0000 {
        3
    } else {
        4
    }
}

// A REAL's four octets are its pattern.
#[tactic(auto, unfolding(lighting_frames::specs::Paper::Tags::real_tag))]
fn real_tag(x: Option<f32>) -> Option<TagContent>
    ensures { result ≡ real_tag x }
{
    x.map(|real| TagContent {
        count: 4,
        value: number_level::bits_of(real),
    })
}

#[tactic(auto, unfolding(lighting_frames::specs::Paper::Tags::whole_tag))]
fn whole_tag(x: Option<u32>) -> Option<TagContent>
    ensures { result ≡ whole_tag x }
{
    x.map(|value| TagContent {
        count: fewest_octets(value),
        value,
    })
}

// How many bytes a field takes: its tag and its content.
#[tactic(auto, unfolding(lighting_frames::specs::Paper::Tags::field_size))]
pub fn field_size(field: Option<TagContent>) -> usize
    ensures { (result ≡ field_size field) × (result ≤ 256) }
{
    field.map_or(0, |content| 1 + usize::from(content.count))
}

#[tactic(auto, unfolding(lighting_frames::specs::Paper::Tags::held_by))]
pub fn held_by(field: Option<TagContent>) -> u32
    ensures { result ≡ held_by field }
{
    field.map_or(0, |content| content.value)
}

// ---- the fields of a command

// An operation with its own fields, and a duration.
#[tactic(auto, unfolding(lighting_frames::specs::Paper::Tags::tags_of))]
pub fn tags_of(operation: Operation, duration: Option<u32>) -> TagFields
    ensures { result ≡ tags_of operation duration }
{
    let own = command_operations::fields_of(operation);
    TagFields {
        operation: Some(TagContent {
            count: 1,
            value: command_operations::operation_number(operation),
        }),
        level: real_tag(own.level),
        rate: real_tag(own.rate),
        step: real_tag(own.step),
        fade: whole_tag(own.fade),
        duration: whole_tag(duration),
    }
}

// An omitted duration is a missing field, and one that cancels is 0.
#[tactic(auto, unfolding(lighting_outputs::specs::Paper::Operations::duration_field))]
fn duration_field(duration: Duration) -> Option<u32>
    ensures { result ≡ duration_field duration }
{
    match duration {
        Duration::Lasts(d) => Some(d),
        Duration::Cancels => Some(0),
        Duration::Omitted => None,
    }
}

#[tactic(auto, unfolding(lighting_frames::specs::Paper::Tags::command_tags))]
pub fn command_tags(k: Command) -> TagFields
    ensures { result ≡ command_tags k }
{
    tags_of(k.operation, duration_field(k.duration))
}
