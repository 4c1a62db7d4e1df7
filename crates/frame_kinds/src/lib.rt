// The table of kinds: the kind byte fixes the length, and says whether a frame is a call and what it asks.
#![tactic(auto)]

ghost use Rattle.std.specs.Prelude.{◌≡◌, ◌<◌, ◌≤◌};
ghost use Rattle.lighting_frames.specs.Paper.Kinds.{call_row, kind_row, kind_length, is_call};

use lighting_frames::{Action, Kind, KindRow};

// The length is in bytes, and the row of an unknown kind has the length 0.
// Stays: no Option, since a length is asked of every byte (`kind_length`), also by the theorem `two`.
fn call_row(length: u32, action: Action) -> KindRow
    ensures { result ≡ call_row length action }
{
    KindRow {
        length,
        kind: Kind::CallKind(action),
    }
}

// The clock, 01, and the kinds 02 to 05.
#[tactic(auto, using(crate::proofs::Table::table))]
fn plain_row(k: u8) -> KindRow
    requires { k < 6 }
    ensures { result ≡ kind_row k }
{
    match k {
        0x01 => KindRow {
            length: 7,
            kind: Kind::ClockKind,
        },
        0x02 => call_row(18, Action::WritesLevel),
        0x03 => call_row(14, Action::EmptiesSlot),
        0x04 => call_row(18, Action::WritesProperty),
        0x05 => call_row(14, Action::ReadsProperty),
        _ => KindRow {
            length: 0,
            kind: Kind::NoKind,
        },
    }
}

// The commands, 10 to 1A, and 1B, a command in tags.
#[tactic(auto, using(crate::proofs::Table::table))]
fn command_row(k: u8) -> KindRow
    requires { 0x10 ≤ k }
    ensures { result ≡ kind_row k }
{
    match k {
        0x10 => call_row(17, Action::Stops),
        0x11 => call_row(21, Action::FadesTo),
        0x12 => call_row(25, Action::FadesToOver),
        0x13 => call_row(21, Action::RampsTo),
        0x14 => call_row(25, Action::RampsToAtRate),
        0x15 => call_row(17, Action::StepsUp),
        0x16 => call_row(17, Action::StepsDown),
        0x17 => call_row(21, Action::StepsUpBy),
        0x18 => call_row(21, Action::StepsDownBy),
        0x19 => call_row(21, Action::GoesTo),
        0x1A => call_row(17, Action::Relinquishes),
        0x1B => call_row(31, Action::CommandsTagged),
        _ => KindRow {
            length: 0,
            kind: Kind::NoKind,
        },
    }
}

// The row of a kind byte: its length, from which the length test follows, and its kind, from which the action
// follows.
// Stays: a match with ranges, by two tables, as the paper names it (docs/PROMISES.md, 'Language forms by
// place').
#[tactic(auto, using(crate::proofs::Table::table))]
pub fn kind_row(k: u8) -> KindRow
    ensures { result ≡ kind_row k }
{
    match k {
        0x01..=0x05 => plain_row(k),
        0x10..=0x1B => command_row(k),
        _ => KindRow {
            length: 0,
            kind: Kind::NoKind,
        },
    }
}

// In bytes, and 0 for an unknown kind.
#[tactic(auto, unfolding(lighting_frames::specs::Paper::Kinds::kind_length))]
pub fn kind_length(k: u8) -> u32
    ensures { result ≡ kind_length k }
{
    kind_row(k).length
}

// Any known kind but a clock goes on with station, number, time and output.
#[tactic(auto, unfolding(lighting_frames::specs::Paper::Kinds::is_call, lighting_frames::specs::Paper::Kinds::calls_by))]
pub fn is_call(k: u8) -> bool
    ensures { result ≡ is_call k }
{
    matches!(kind_row(k).kind, Kind::CallKind(_))
}
