// The lines of one output.
#![tactic(auto, using(text_printing::proofs::Pages::texts))]

ghost use Rattle.std.specs.Prelude.{◌≡◌, ◌+◌, ◌<◌, get_or};
ghost use Rattle.text_printing.specs.Page.{Wrote};
ghost use Rattle.text_block.specs.Block.{level_field, slot_field, slot_fields, hex_field, answer_field, property_field, property_fields, number_line, slots_line, present_line, progress_line, process_line, properties_line, tagged_line, block};
ghost use Rattle.lighting_outputs.specs.Paper.Slots.{slot_count};

use lighting_outputs::{Answer, Command, NO_SLOT, Output, Slots};
use text_printing::Page;

// ---- fields

#[tactic(auto, using(text_printing::proofs::Pages::texts), unfolding(crate::specs::Block::level_field))]
fn put_level_field(page: &mut Page, v: u32)
    ensures { Wrote page.old (level_field v) page.new }
{
    page.put(b' ');
    page.put_decimal(u64::from(v));
}

#[tactic(auto, using(text_printing::proofs::Pages::texts, lighting_levels::proofs::Choosing::ifs), unfolding(crate::specs::Block::slot_field, crate::specs::Block::slot_level))]
fn put_slot_field(page: &mut Page, s: Slots, i: u8)
    ensures { Wrote page.old (slot_field s i) page.new }
{
    if output_slots::is_live(s, i) {
        put_level_field(page, output_slots::level_at(0, s, u32::from(i)));
    } else {
        page.put_all(b" -");
    }
}

#[tactic(auto, using(text_printing::proofs::Pages::texts, crate::proofs::Turns::slots_turn), unfolding(crate::specs::Block::slot_fields))]
fn put_slot_fields(page: &mut Page, s: Slots)
    ensures { Wrote page.old (slot_fields s slot_count) page.new }
{
    for i in 0..NO_SLOT {
        put_slot_field(page, s, i);
    }
}

#[tactic(auto, using(text_printing::proofs::Pages::texts), unfolding(crate::specs::Block::hex_field))]
fn put_hex_field(page: &mut Page, v: u32)
    ensures { Wrote page.old (hex_field v) page.new }
{
    page.put(b' ');
    page.put_hex8(v);
}

#[tactic(auto, using(text_printing::proofs::Pages::texts), unfolding(crate::specs::Block::answer_field))]
fn put_answer_field(page: &mut Page, a: Answer)
    ensures { Wrote page.old (answer_field a) page.new }
{
    match a {
        Answer::Value(v) => put_hex_field(page, v),
        Answer::Done | Answer::Absent | Answer::Refused(_) => page.put_all(b" -"),
    }
}

// As a service station reads it (§8).
#[tactic(auto, using(text_printing::proofs::Pages::texts), unfolding(crate::specs::Block::property_field))]
fn put_property(page: &mut Page, t: u64, o: Output, k: u8)
    ensures { Wrote page.old (property_field t o k) page.new }
{
    let p = property_write::property_of(k);
    put_answer_field(page, property_read::read_property(false, t, o, p));
}

#[tactic(auto, using(text_printing::proofs::Pages::texts, crate::proofs::Turns::properties_turn), unfolding(crate::specs::Block::property_fields))]
fn put_properties(page: &mut Page, t: u64, o: Output, k: u8, n: u8)
    requires k_bound { k < 128 }
    requires n_bound { n < 128 }
    ensures { Wrote page.old (property_fields t o k n) page.new }
{
    for i in 0..n {
        put_property(page, t, o, k + i);
    }
}

// ---- lines

#[tactic(auto, using(text_printing::proofs::Pages::texts), unfolding(crate::specs::Block::number_line))]
fn put_number_line(page: &mut Page, word: &[u8], n: u64)
    ensures { Wrote page.old (number_line word.now n) page.new }
{
    page.put_all(word);
    page.put_decimal(n);
    page.put(b'\n');
}

#[tactic(auto, using(text_printing::proofs::Pages::texts), unfolding(crate::specs::Block::slots_line))]
fn put_slots_line(page: &mut Page, s: Slots)
    ensures { Wrote page.old (slots_line s) page.new }
{
    page.put_all(b"slots");
    put_slot_fields(page, s);
    page.put(b'\n');
}

#[tactic(auto, using(text_printing::proofs::Pages::texts), unfolding(crate::specs::Block::present_line))]
fn put_present_line(page: &mut Page, o: Output)
    ensures { Wrote page.old (present_line o) page.new }
{
    let present = output_value::present_value(o.settings, o.slots);
    put_number_line(page, b"pv ", u64::from(present));
}

#[tactic(auto, using(text_printing::proofs::Pages::texts), unfolding(crate::specs::Block::progress_line))]
fn put_progress_line(page: &mut Page, t: u64, o: Output)
    ensures { Wrote page.old (progress_line t o) page.new }
{
    let progress = output_value::progress_value(t, o);
    put_number_line(page, b"progress ", u64::from(progress));
}

#[tactic(auto, using(text_printing::proofs::Pages::texts), unfolding(crate::specs::Block::process_line))]
fn put_process_line(page: &mut Page, o: Output)
    ensures { Wrote page.old (process_line o) page.new }
{
    let process = output_value::in_process(o.activity);
    put_number_line(page, b"inprocess ", u64::from(process));
}

// A word, and n properties from the number k on.
#[tactic(auto, using(text_printing::proofs::Pages::texts), unfolding(crate::specs::Block::properties_line))]
fn put_properties_line(page: &mut Page, word: &[u8], t: u64, o: Output, k: u8, n: u8)
    requires k_bound { k < 128 }
    requires n_bound { n < 128 }
    ensures { Wrote page.old (properties_line word.now t o k n) page.new }
{
    page.put_all(word);
    put_properties(page, t, o, k, n);
    page.put(b'\n');
}

// The command's own bytes, without the zeros after them.
#[tactic(auto, using(crate::proofs::Tagged::own_end))]
fn put_tagged_line(page: &mut Page, k: Command)
    ensures { Wrote page.old (tagged_line k) page.new }
{
    let body = tag_writing::tagged_body(k);
    page.put_all(b"tagged ");
    page.put_hex_bytes(&body.bytes[..usize::from(body.length)]);
    page.put(b'\n');
}

// ---- the block

#[tactic(auto, using(text_printing::proofs::Pages::texts), unfolding(crate::specs::Block::block, crate::specs::Block::joined, crate::specs::Block::lines))]
pub fn put_block(page: &mut Page, i: u64, t: u64, o: Output)
    ensures { Wrote page.old (block i t o) page.new }
{
    put_number_line(page, b"output ", i);
    put_slots_line(page, o.slots);
    put_present_line(page, o);
    put_progress_line(page, t, o);
    put_process_line(page, o);
    put_properties_line(page, b"settings", t, o, 0x01, 10);
    put_properties_line(page, b"last", t, o, 0x0F, 6);
    put_number_line(page, b"burning ", o.burning);
    put_tagged_line(page, o.last);
    put_properties_line(page, b"relay", t, o, 0x17, 5);
}
