// The report for people.
#![tactic(auto, using(text_printing::proofs::Pages::texts))]

ghost use Rattle.std.specs.Prelude.{◌≡◌, ◌*◌, ◌/◌, ◌%◌};
ghost use Rattle.text_printing.specs.Page.{Wrote};
ghost use Rattle.text_report.specs.Report.{digit, two_digits, three_digits, lead, aligned, percent, minutes, moment, lasting, either, operation_name, until, activity_text, timer_text, light_fields, level_fields, time_fields, relay_field, way_fields, report_line, report_head};

use lighting_outputs::{Activity, Operation, Output, Relay, Timer};
use text_printing::{Page, last_digit};

// ---- numbers

// Stays: two digits and three. One function of N digits would need powers of ten, or a loop from the last.
#[tactic(auto, using(text_printing::proofs::Pages::texts), unfolding(crate::specs::Report::two_digits))]
fn put_two(page: &mut Page, n: u64)
    ensures { Wrote page.old (two_digits n) page.new }
{
    page.put(last_digit(n / 10));
    page.put(last_digit(n));
}

#[tactic(auto, using(text_printing::proofs::Pages::texts), unfolding(crate::specs::Report::three_digits))]
fn put_three(page: &mut Page, n: u64)
    ensures { Wrote page.old (three_digits n) page.new }
{
    page.put(last_digit(n / 100));
    put_two(page, n);
}

#[tactic(auto, using(text_printing::proofs::Pages::texts, lighting_levels::proofs::Choosing::ifs), unfolding(crate::specs::Report::lead))]
fn put_lead(page: &mut Page, n: u64)
    ensures { Wrote page.old (lead n) page.new }
{
    if n < 10 {
        page.put_all(b"  ");
    } else if n < 100 {
        page.put(b' ');
    }
}

#[tactic(auto, using(text_printing::proofs::Pages::texts), unfolding(crate::specs::Report::aligned))]
fn put_aligned(page: &mut Page, n: u64)
    ensures { Wrote page.old (aligned n) page.new }
{
    put_lead(page, n);
    page.put_decimal(n);
}

// Hundredths of a percent past the whole ones.
fn hundredths(u: u64) -> u64
    ensures { result ≡ u % 65536 * 100 / 65536 }
{
    u % 65536 * 100 / 65536
}

#[tactic(auto, using(text_printing::proofs::Pages::texts), unfolding(crate::specs::Report::percent))]
fn put_percent(page: &mut Page, u: u32)
    ensures { Wrote page.old (percent u) page.new }
{
    let n = u64::from(u);
    put_aligned(page, n / 65536);
    page.put(b'.');
    put_two(page, hundredths(n));
}

#[tactic(auto, using(text_printing::proofs::Pages::texts), unfolding(crate::specs::Report::minutes))]
fn put_minutes(page: &mut Page, n: u64)
    ensures { Wrote page.old (minutes n) page.new }
{
    page.put(b':');
    put_two(page, n / 60000 % 60);
    page.put(b':');
    put_two(page, n / 1000 % 60);
}

#[tactic(auto, using(text_printing::proofs::Pages::texts), unfolding(crate::specs::Report::moment))]
fn put_moment(page: &mut Page, t: u64)
    ensures { Wrote page.old (moment t) page.new }
{
    page.put_decimal(t / 3600000);
    put_minutes(page, t);
    page.put(b'.');
    put_three(page, t % 1000);
}

#[tactic(auto, using(text_printing::proofs::Pages::texts), unfolding(crate::specs::Report::lasting))]
fn put_lasting(page: &mut Page, n: u64)
    ensures { Wrote page.old (lasting n) page.new }
{
    put_aligned(page, n / 3600000);
    put_minutes(page, n);
}

// ---- words

// Stays: one of two words by a fact (lit or dark, on or off), and no switch between steps.
#[tactic(auto, using(text_printing::proofs::Pages::texts, lighting_levels::proofs::Choosing::ifs), unfolding(crate::specs::Report::either))]
fn put_either(page: &mut Page, this: &[u8], that: &[u8], b: bool)
    ensures { Wrote page.old (either this.now that.now b) page.new }
{
    page.put_all(if b { this } else { that });
}

#[tactic(auto, using(text_printing::proofs::Pages::texts), unfolding(crate::specs::Report::operation_name))]
fn operation_name(o: Operation) -> &'static [u8]
    ensures { result.now ≡ operation_name o }
{
    match o {
        Operation::Stop => b"  STOP           ",
        Operation::FadeTo(_) => b"  FADE_TO        ",
        Operation::FadeToOver(_, _) => b"  FADE_TO_OVER   ",
        Operation::RampTo(_) => b"  RAMP_TO        ",
        Operation::RampToAtRate(_, _) => b"  RAMP_TO_AT_RATE",
        Operation::StepUp => b"  STEP_UP        ",
        Operation::StepDown => b"  STEP_DOWN      ",
        Operation::StepUpBy(_) => b"  STEP_UP_BY     ",
        Operation::StepDownBy(_) => b"  STEP_DOWN_BY   ",
        Operation::Goto(_) => b"  GOTO           ",
        Operation::Relinquish => b"  RELINQUISH     ",
    }
}

// ---- what is under way

#[tactic(auto, using(text_printing::proofs::Pages::texts), unfolding(crate::specs::Report::until))]
fn put_until(page: &mut Page, word: &[u8], t: u64)
    ensures { Wrote page.old (until word.now t) page.new }
{
    page.put_all(word);
    put_moment(page, t);
}

#[tactic(auto, using(text_printing::proofs::Pages::texts), unfolding(crate::specs::Report::activity_text))]
fn put_activity(page: &mut Page, a: Activity)
    ensures { Wrote page.old (activity_text a) page.new }
{
    match a {
        Activity::Still => {}
        Activity::Moving(m) => put_until(page, b"  moving until ", m.over),
        Activity::Warned(w) => put_until(page, b"  blink warning until ", w.over),
    }
}

#[tactic(auto, using(text_printing::proofs::Pages::texts), unfolding(crate::specs::Report::timer_text))]
fn put_timer(page: &mut Page, t: Option<Timer>)
    ensures { Wrote page.old (timer_text t) page.new }
{
    if let Some(timer) = t {
        put_until(page, b"  duration until ", timer.due);
    }
}

// ---- the line of an output

#[tactic(auto, using(text_printing::proofs::Pages::texts), unfolding(crate::specs::Report::light_fields))]
fn put_light_fields(page: &mut Page, i: u64, t: u64, o: Output)
    ensures { Wrote page.old (light_fields i t o) page.new }
{
    page.put_all(b"  ");
    put_aligned(page, i);
    page.put_all(b"  ");
    put_either(page, b"  lit  ", b"  dark ", output_value::is_lit(t, o));
}

#[tactic(auto, using(text_printing::proofs::Pages::texts), unfolding(crate::specs::Report::level_fields))]
fn put_level_fields(page: &mut Page, t: u64, o: Output)
    ensures { Wrote page.old (level_fields t o) page.new }
{
    page.put_all(b"  ");
    put_percent(page, output_value::present_value(o.settings, o.slots));
    page.put_all(b"    ");
    put_percent(page, output_value::progress_value(t, o));
}

#[tactic(auto, using(text_printing::proofs::Pages::texts), unfolding(crate::specs::Report::time_fields))]
fn put_time_fields(page: &mut Page, o: Output)
    ensures { Wrote page.old (time_fields o) page.new }
{
    page.put_all(b"  ");
    put_lasting(page, o.burning);
    page.put_all(operation_name(o.last.operation));
}

#[tactic(auto, using(text_printing::proofs::Pages::texts), unfolding(crate::specs::Report::relay_field))]
fn put_relay(page: &mut Page, relay: Relay)
    ensures { Wrote page.old (relay_field relay) page.new }
{
    put_either(
        page,
        b"  on   ",
        b"  off  ",
        output_relay::relay_state(relay),
    );
}

#[tactic(auto, using(text_printing::proofs::Pages::texts), unfolding(crate::specs::Report::way_fields))]
fn put_way_fields(page: &mut Page, o: Output)
    ensures { Wrote page.old (way_fields o) page.new }
{
    put_relay(page, o.relay);
    put_activity(page, o.activity);
    put_timer(page, o.timer);
    page.put(b'\n');
}

#[tactic(auto, using(text_printing::proofs::Pages::texts), unfolding(crate::specs::Report::report_line))]
pub fn put_report_line(page: &mut Page, i: u64, t: u64, o: Output)
    ensures { Wrote page.old (report_line i t o) page.new }
{
    put_light_fields(page, i, t, o);
    put_level_fields(page, t, o);
    put_time_fields(page, o);
    put_way_fields(page, o);
}

#[tactic(auto, using(text_printing::proofs::Pages::texts), unfolding(crate::specs::Report::report_head))]
pub fn put_report_head(page: &mut Page, t: u64)
    ensures { Wrote page.old (report_head t) page.new }
{
    page.put_all(b"panel time ");
    put_moment(page, t);
    page.put(b'\n');
    page.put_all(
        b"output  light  present  progress    burning  last command     relay  under way\n",
    );
}
