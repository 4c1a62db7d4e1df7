// Kinds 02 and 03: a slot is written or emptied, with the blink warning that a zero may start. All by value.
// Slots are counted from 0: the paper's slot 6, which a warning holds, is 5. `t` is the moment, `o` the
// output, `i` the slot, `v` the level.
#![tactic(auto)]

ghost use Rattle.std.specs.Prelude.{◌≡◌};
ghost use Rattle.lighting_outputs.specs.Paper.Writing.{end_movement_unless_above, stored, warned_by, warned, ended_empty, ended_stored, written_warned, written_zero, written_calm, written_by, written, activity_relinquished, slot_relinquished};

use lighting_outputs::{Activity, Output, SLOT_6};
use output_record::with_effect;
use panel_time::PanelTime;

// ---- warnings aside

// 'A movement goes on if P is above its owner's number [..]; else it ends': a write at the owner's own number
// ends it too.
#[tactic(auto, using(lighting_levels::proofs::Choosing::ifs), unfolding(lighting_outputs::specs::Paper::Writing::end_movement_unless_above))]
fn end_movement_unless_above(i: u8, a: Activity) -> Activity
    ensures { result ≡ end_movement_unless_above i a }
{
    match a {
        Activity::Moving(m) if i <= m.owner => Activity::Still,
        Activity::Still | Activity::Moving(_) | Activity::Warned(_) => a,
    }
}

#[tactic(auto, unfolding(lighting_outputs::specs::Paper::Writing::stored))]
fn store(o: Output, i: u8, v: u32) -> Output
    ensures { result ≡ stored o i v }
{
    with_effect(
        o,
        output_slots::fill(o.slots, i, v),
        end_movement_unless_above(i, o.activity),
    )
}

// ---- a warning starts

#[tactic(auto, unfolding(lighting_outputs::specs::Paper::Writing::warned_by))]
fn warn_by(t: PanelTime, o: Output, x: u8, y: u32) -> Output
    ensures { result ≡ warned_by t.milliseconds o x y }
{
    with_effect(
        o,
        output_slots::fill(
            output_slots::fill(o.slots, x, 0),
            SLOT_6,
            output_warning::first_level(o.settings, y),
        ),
        Activity::Warned(output_warning::warning_from(t, o.settings, x, y)),
    )
}

// Y is Present_Value before the write.
#[tactic(auto, unfolding(lighting_outputs::specs::Paper::Writing::warned))]
fn warn(t: PanelTime, o: Output, x: u8) -> Output
    ensures { result ≡ warned t.milliseconds o x }
{
    warn_by(t, o, x, output_value::present_value(o.settings, o.slots))
}

// ---- during a warning

#[tactic(auto, unfolding(lighting_outputs::specs::Paper::Writing::ended_empty))]
fn end_empty(o: Output, i: u8) -> Output
    ensures { result ≡ ended_empty o i }
{
    with_effect(
        o,
        output_slots::empty(output_slots::empty(o.slots, SLOT_6), i),
        Activity::Still,
    )
}

#[tactic(auto, unfolding(lighting_outputs::specs::Paper::Writing::ended_stored))]
fn end_store(o: Output, i: u8, v: u32) -> Output
    ensures { result ≡ ended_stored o i v }
{
    with_effect(
        o,
        output_slots::fill(output_slots::empty(o.slots, SLOT_6), i, v),
        Activity::Still,
    )
}

// 'kind 02 of zero at P above 6 empties slots 6 and P'; any other empties slot 6 and stores.
#[tactic(auto, using(lighting_levels::proofs::Choosing::ifs), unfolding(lighting_outputs::specs::Paper::Writing::written_warned))]
fn write_warned(o: Output, i: u8, v: u32) -> Output
    ensures { result ≡ written_warned o i v }
{
    if v == 0 && SLOT_6 < i {
        end_empty(o, i)
    } else {
        end_store(o, i, v)
    }
}

// ---- kind 02

#[tactic(auto, using(lighting_levels::proofs::Choosing::ifs), unfolding(lighting_outputs::specs::Paper::Writing::written_zero))]
fn write_zero(t: PanelTime, o: Output, i: u8) -> Output
    ensures { result ≡ written_zero t.milliseconds o i }
{
    if output_warning::does_warn(o.settings, o.slots, i) {
        warn(t, o, i)
    } else {
        store(o, i, 0)
    }
}

#[tactic(auto, using(lighting_levels::proofs::Choosing::ifs), unfolding(lighting_outputs::specs::Paper::Writing::written_calm))]
fn write_calm(t: PanelTime, o: Output, i: u8, v: u32) -> Output
    ensures { result ≡ written_calm t.milliseconds o i v }
{
    if v == 0 {
        write_zero(t, o, i)
    } else {
        store(o, i, v)
    }
}

#[tactic(auto, unfolding(lighting_outputs::specs::Paper::Writing::written_by))]
fn write_by(t: PanelTime, o: Output, i: u8, v: u32, a: Activity) -> Output
    ensures { result ≡ written_by t.milliseconds o i v a }
{
    match a {
        Activity::Still | Activity::Moving(_) => write_calm(t, o, i, v),
        Activity::Warned(_) => write_warned(o, i, v),
    }
}

#[tactic(auto, unfolding(lighting_outputs::specs::Paper::Writing::written))]
pub fn write(t: PanelTime, o: Output, i: u8, v: u32) -> Output
    ensures { result ≡ written t.milliseconds o i v }
{
    write_by(t, o, i, v, o.activity)
}

// ---- kind 03

// A movement goes on also 'if kind 03 empties an empty slot'; 'kind 03 leaves [a warning] running'.
// Stays: `live` is a fact of the slot, as the definition takes it, and no switch between steps.
#[tactic(auto, using(lighting_levels::proofs::Choosing::ifs), unfolding(lighting_outputs::specs::Paper::Writing::activity_relinquished))]
fn relinquish_activity(live: bool, i: u8, a: Activity) -> Activity
    ensures { result ≡ activity_relinquished live i a }
{
    if live {
        end_movement_unless_above(i, a)
    } else {
        a
    }
}

#[tactic(auto, unfolding(lighting_outputs::specs::Paper::Writing::slot_relinquished))]
pub fn relinquish_slot(o: Output, i: u8) -> Output
    ensures { result ≡ slot_relinquished o i }
{
    with_effect(
        o,
        output_slots::empty(o.slots, i),
        relinquish_activity(output_slots::is_live(o.slots, i), i, o.activity),
    )
}
