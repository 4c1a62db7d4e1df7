// A command in BACnet's own tagging, written on a page as text is: the writer of §1.
#![tactic(auto, using(text_printing::proofs::Pages::texts))]

ghost use Rattle.std.specs.Prelude.{◌≡◌, ◌≤◌};
ghost use Rattle.lighting_levels.specs.Paper.Field.{octets};
ghost use Rattle.lighting_frames.specs.Paper.Tags.{field_size, field_bytes, tag_bytes, command_tags, tagged_body};
ghost use Rattle.text_printing.specs.Page.{Wrote};

use lighting_frames::{MOST_TAGGED, TagContent, TaggedBody};
use lighting_outputs::Command;
use text_printing::Page;

// ---- one field

// A number in `count` octets: the last of its four.
#[tactic(auto, using(text_printing::proofs::Pages::texts, crate::proofs::Bytes::last_octets))]
fn put_octets(page: &mut Page, count: u8, v: u32)
    requires { count ≤ 4 }
    ensures { Wrote page.old (octets count v) page.new }
{
    page.put_all(&v.to_be_bytes()[4 - usize::from(count)..]);
}

// No field is of more than four octets.
#[tactic(auto, using(text_printing::proofs::Pages::texts, crate::proofs::Bytes::count_most), unfolding(lighting_frames::specs::Paper::Tags::field_bytes))]
fn put_field(page: &mut Page, number: u8, field: Option<TagContent>)
    requires { (number ≤ 5) × (field_size field ≤ 5) }
    ensures { Wrote page.old (field_bytes number field) page.new }
{
    if let Some(content) = field {
        page.put(tag_fields::context_tag(number, content.count));
        put_octets(page, content.count, content.value);
    }
}

// ---- a command

// The fields of a command, in the order of their tags.
#[tactic(auto, using(text_printing::proofs::Pages::texts, crate::proofs::Room::duration_most, crate::proofs::Room::fade_most, crate::proofs::Room::level_most, crate::proofs::Room::operation_most, crate::proofs::Room::rate_most, crate::proofs::Room::step_most), unfolding(lighting_frames::specs::Paper::Tags::tag_bytes, lighting_frames::specs::Paper::Tags::bytes_from))]
fn put_command(page: &mut Page, k: Command)
    ensures { Wrote page.old (tag_bytes (command_tags k)) page.new }
{
    let f = tag_fields::command_tags(k);
    put_field(page, 0, f.operation);
    put_field(page, 1, f.level);
    put_field(page, 2, f.rate);
    put_field(page, 3, f.step);
    put_field(page, 4, f.fade);
    put_field(page, 5, f.duration);
}

// The longest commands, with two REALs or a REAL and a fade time, and a duration, are of 17 bytes: there is
// always room.
pub fn tagged_body(k: Command) -> TaggedBody
    ensures { result ≡ tagged_body k }
{
    let mut bytes = [0u8; MOST_TAGGED];
    let mut page = Page::new(&mut bytes);
    put_command(&mut page, k);
    let length = page.mark as u8;
    TaggedBody { length, bytes }
}
