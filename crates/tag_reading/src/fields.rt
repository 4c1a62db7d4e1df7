// The fields of a body in tags: each is looked for once, behind those of lower numbers.
ghost use Rattle.std.specs.Prelude.{◌≡◌, ◌≤◌, take, drop};
ghost use Rattle.lighting_levels.specs.Paper.Field.{big_endian};
ghost use Rattle.lighting_frames.specs.Paper.Tags.{tag_octets, named, field_size, field_in, fields_from, length_of, body_fields};

use lighting_frames::{TagContent, TagFields};

// The number in the `count` octets behind a tag: of the four bytes there, with zeros past the end, the first.
fn number_behind(left: &[u8], count: u8) -> u32
    requires { (1 ≤ count) × (count ≤ 4) }
    ensures { result ≡ big_endian count left.now 1 }
{
    let word = frame_field::word32_at(left, 1);
    match count {
        1 => word / 0x100_0000,
        2 => word / 0x1_0000,
        3 => word / 0x100,
        _ => word,
    }
}

// The field with this number at the head of what is left, of `least` to `most` octets: there if its tag is,
// and no octet of it is missing.
#[tactic(auto, using(crate::proofs::Looking::between, crate::proofs::Looking::cut_short, crate::proofs::Looking::elsewhere, crate::proofs::Looking::found))]
fn field_in(number: u8, least: u8, most: u8, left: &[u8]) -> Option<TagContent>
    requires { (number ≤ 5) × (1 ≤ least) × (least ≤ most) × (most ≤ 4) }
    ensures { result ≡ field_in number (record { least = least; most = most }) left.now }
{
    let tag = frame_field::byte_at(left, 0);
    if number_ranges::is_within(
        u32::from(tag_fields::context_tag(number, least)),
        u32::from(tag_fields::context_tag(number, most)),
        u32::from(tag),
    ) {
        let count = tag - tag_fields::context_tag(number, 0);
        if usize::from(count) < left.len() {
            return Some(TagContent {
                count,
                value: number_behind(left, count),
            });
        }
    }
    None
}

// What is left behind a field: a missing one uses nothing up.
fn behind(left: &[u8], field: Option<TagContent>) -> &[u8]
    ensures { result.now ≡ drop (field_size field) left.now }
{
    frame_field::from_on(left, tag_fields::field_size(field))
}

// The operation in one octet, a REAL in four, a whole number in one to four.
#[tactic(auto, unfolding(lighting_frames::specs::Paper::Tags::fields_from))]
fn fields_in(left: &[u8]) -> TagFields
    ensures { result ≡ named (fields_from 0 tag_octets left.now) }
{
    let operation = field_in(0, 1, 1, left);
    let second = behind(left, operation);
    let level = field_in(1, 4, 4, second);
    let third = behind(second, level);
    let rate = field_in(2, 4, 4, third);
    let fourth = behind(third, rate);
    let step = field_in(3, 4, 4, fourth);
    let fifth = behind(fourth, step);
    let fade = field_in(4, 1, 4, fifth);
    let sixth = behind(fifth, fade);
    let duration = field_in(5, 1, 4, sixth);
    TagFields {
        operation,
        level,
        rate,
        step,
        fade,
        duration,
    }
}

// The L bytes of a body, as far as there are any.
fn content(body: &[u8]) -> &[u8]
    ensures { result.now ≡ take (length_of body.now) (drop 1 body.now) }
{
    let length = usize::from(frame_field::byte_at(body, 0));
    frame_field::first(frame_field::from_on(body, 1), length)
}

#[tactic(auto, unfolding(lighting_frames::specs::Paper::Tags::body_fields))]
pub fn body_fields(body: &[u8]) -> TagFields
    ensures { result ≡ body_fields body.now }
{
    fields_in(content(body))
}
