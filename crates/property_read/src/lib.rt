// What the properties read as. Levels read out as REALs, and the last command's REALs as they were written.
#![tactic(auto)]

ghost use Rattle.std.specs.Prelude.{◌≡◌, ◌+◌};
ghost use Rattle.lighting_levels.specs.Paper.Choice.{when◌then◌else◌};
ghost use Rattle.lighting_outputs.specs.Paper.Tenants.{shown_level, hidden};
ghost use Rattle.lighting_outputs.specs.Paper.Properties.{level_answer, slot_answer, flag, elapsed_active, real_answer, real_field_answer, time_field_answer, last_duration, read_property};

use lighting_outputs::{Answer, Duration, Output, Property, Refusal, Slots};

#[tactic(auto, unfolding(lighting_outputs::specs::Paper::Properties::level_answer))]
fn level_answer(v: u32) -> Answer
    ensures { result ≡ level_answer v }
{
    Answer::Value(number_level::read_out(v))
}

// A level that a tenant reads in whole percent.
fn shown_answer(tenant: bool, v: u32) -> Answer
    ensures { result ≡ level_answer (shown_level tenant v) }
{
    level_answer(tenant_view::shown_level(tenant, v))
}

// A slot that is not live is absent.
#[tactic(auto, using(lighting_outputs::proofs::Priorities::Mask::slot_dead, lighting_outputs::proofs::Priorities::Mask::slot_live), unfolding(lighting_outputs::specs::Paper::Properties::level_or_absent, lighting_outputs::specs::Paper::Properties::slot_answer))]
fn slot_answer(s: Slots, i: u8) -> Answer
    ensures { result ≡ slot_answer s i }
{
    if output_slots::is_live(s, i) {
        level_answer(output_slots::level_at(0, s, u32::from(i)))
    } else {
        Answer::Absent
    }
}

// To a tenant slots 1 to 6 are absent, live or not.
#[tactic(auto, using(lighting_levels::proofs::Choosing::ifs))]
fn unhidden_answer(tenant: bool, s: Slots, i: u8) -> Answer
    ensures { result ≡ (when hidden tenant i then Answer.Absent else slot_answer s i) }
{
    if tenant_view::is_hidden(tenant, i) {
        Answer::Absent
    } else {
        slot_answer(s, i)
    }
}

#[tactic(auto, using(lighting_levels::proofs::Choosing::ifs), unfolding(lighting_outputs::specs::Paper::Properties::flag))]
fn flag(b: bool) -> u32
    ensures { result ≡ flag b }
{
    u32::from(b)
}

// 'Elapsed_Active_Time reads floor(burning / 1,000), at most 4,294,967,295'.
#[tactic(auto, unfolding(lighting_outputs::specs::Paper::Properties::elapsed_active))]
fn elapsed_active(burning: u64) -> u32
    ensures { result ≡ elapsed_active burning }
{
    u32::try_from(burning / 1000).unwrap_or(u32::MAX)
}

#[tactic(auto, unfolding(lighting_outputs::specs::Paper::Properties::real_answer))]
fn real_answer(x: f32) -> Answer
    ensures { result ≡ real_answer x }
{
    Answer::Value(number_level::bits_of(x))
}

// A field of the last command: absent where its operation has none, also where a setting was used in its
// place.
#[tactic(auto, unfolding(lighting_outputs::specs::Paper::Properties::real_field_answer))]
fn real_field_answer(x: Option<f32>) -> Answer
    ensures { result ≡ real_field_answer x }
{
    x.map_or(Answer::Absent, |real| real_answer(real))
}

#[tactic(auto, unfolding(lighting_outputs::specs::Paper::Properties::time_field_answer))]
fn time_field_answer(x: Option<u32>) -> Answer
    ensures { result ≡ time_field_answer x }
{
    x.map_or(Answer::Absent, |time| Answer::Value(time))
}

#[tactic(auto, unfolding(lighting_outputs::specs::Paper::Properties::last_duration))]
fn last_duration(d: Duration) -> Answer
    ensures { result ≡ last_duration d }
{
    match d {
        Duration::Lasts(time) => Answer::Value(time),
        Duration::Cancels => Answer::Value(0),
        Duration::Omitted => Answer::Absent,
    }
}

// Kind 05, a read: what a property reads as at the time t, to a tenant or to a service station (§8).
#[tactic(auto, unfolding(lighting_outputs::specs::Paper::Properties::read_property))]
pub fn read_property(tenant: bool, t: u64, o: Output, p: Property) -> Answer
    ensures { result ≡ read_property tenant t o p }
{
    let last = o.last;
    let fields = command_operations::fields_of(last.operation);
    match p {
        Property::RelinquishDefault => level_answer(o.settings.default),
        Property::FadeTime => Answer::Value(o.settings.fade),
        Property::RampRate => real_answer(o.settings.ramp),
        Property::StepIncrement => real_answer(o.settings.step),
        Property::BlinkEnable => Answer::Value(flag(o.settings.enable)),
        Property::BlinkTime => Answer::Value(o.settings.blink),
        Property::BlinkWarnDelay => Answer::Value(o.settings.delay),
        Property::MinValue => level_answer(o.settings.min),
        Property::MaxValue => level_answer(o.settings.max),
        // Lighting_Command_Priority is kept as its slot.
        Property::CommandPriority => Answer::Value(u32::from(o.settings.slot) + 1),
        Property::ElapsedActiveTime => Answer::Value(elapsed_active(o.burning)),
        Property::PresentValue => shown_answer(
            tenant,
            output_value::present_value(o.settings, o.slots),
        ),
        Property::ProgressValue => shown_answer(tenant, output_value::progress_value(t, o)),
        Property::InProcess => Answer::Value(output_value::in_process(o.activity)),
        Property::LastOperation => Answer::Value(command_operations::operation_number(
            last.operation,
        )),
        Property::LastLevel => real_field_answer(fields.level),
        Property::LastRate => real_field_answer(fields.rate),
        Property::LastStep => real_field_answer(fields.step),
        Property::LastFadeTime => time_field_answer(fields.fade),
        Property::LastDuration => last_duration(last.duration),
        Property::BinaryActiveValue => level_answer(o.relay.active),
        Property::BinaryInactiveValue => level_answer(o.relay.inactive),
        Property::Polarity => Answer::Value(flag(o.relay.reverse)),
        Property::BinaryPresentValue => Answer::Value(flag(o.relay.binary)),
        Property::RelayState => Answer::Value(flag(output_relay::relay_state(o.relay))),
        Property::SlotValue(i) => unhidden_answer(tenant, o.slots, i),
        Property::Unknown => Answer::from(Refusal::NotWritable),
    }
}
