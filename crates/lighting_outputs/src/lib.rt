// An output of the dimming panel, and what is asked of it: the types. The definitions of specs/ are over
// these very types, and so is the code of the crates above. Slots are counted from 0: priority p is slot p -
// 1, and slot 6 of the paper is 5. Times are in milliseconds.
#![tactic(auto)]

ghost use Rattle.std.specs.Prelude.{◌≡◌};
ghost use Rattle.lighting_outputs.specs.Paper.Answers.{as_request};

mod refusals;

pub use refusals::Refusal;

// ---- numbers by name; the definitions have the same (specs/Paper/Slots.antt, specs/Paper/Level.antt)

// Sixteen slots: how many there are, and the first number that is no slot. Slot 6, which is a warning's, and
// slot 16, the last.
pub const SLOTS: usize = 16;

pub const NO_SLOT: u8 = 16;

pub const SLOT_6: u8 = 5;

pub const SLOT_16: u8 = 15;

// ---- an output's record

// Sixteen bits say which slots are live, priority 1 being the lowest, beside the levels. An emptied slot's
// level is 0.
#[derive(Clone, Copy)]
pub struct Slots {
    pub live: u16,
    pub levels: [u32; SLOTS],
}

// The writable properties of document 01 but Elapsed_Active_Time; those of §3 stand in the relay. Fields have
// names of one word: the definitions would have to put others between marks.
#[derive(Clone, Copy)]
pub struct Settings {
    // Relinquish_Default, a level
    pub default: u32,
    // Fade_Time
    pub fade: u32,
    // Ramp_Rate and Step_Increment, kept as REALs, bit for bit
    pub ramp: f32,
    pub step: f32,
    // Blink_Enable, Blink_Time and Blink_Warn_Delay
    pub enable: bool,
    pub blink: u32,
    pub delay: u32,
    // Min and Max, levels
    pub min: u32,
    pub max: u32,
    // Lighting_Command_Priority, less one
    pub slot: u8,
}

// The relay of an output (§3 of the change requests), which Present_Value switches.
#[derive(Clone, Copy)]
pub struct Relay {
    // Binary_Active_Value and Binary_Inactive_Value, levels: at or above the one it turns active, at or below
    // the other inactive
    pub active: u32,
    pub inactive: u32,
    // Polarity: normal, or reverse
    pub reverse: bool,
    // Binary_Present_Value: active, or inactive
    pub binary: bool,
}

// How a movement goes: a fade by an even share of its way, a ramp at a rate in units a second.
// Stays: no Option of a rate, which would be no plainer: `None` would have to mean a fade.
#[derive(Clone, Copy)]
pub enum Pace {
    Fade,
    Ramp(u32),
}

// The movement of the slot `owner`. It lasts `length` and is over at the moment `over`: a due moment is kept
// whole, so that none has to be added up when a record is read.
#[derive(Clone, Copy)]
pub struct Movement {
    pub owner: u8,
    pub start: u32,
    pub target: u32,
    pub length: u32,
    pub over: u64,
    pub pace: Pace,
}

// The phases of a warning: in Blink slot 6 holds 0 until the moment `turn`; in Delay it holds the old level
// until the moment `over`.
#[derive(Clone, Copy)]
pub enum Phase {
    Blink,
    Delay,
}

// The warning of the slot `owner`. `level` is the paper's Y. Without a delay `over` is `turn`, and no Delay
// follows.
#[derive(Clone, Copy)]
pub struct Warning {
    pub phase: Phase,
    pub owner: u8,
    pub level: u32,
    pub turn: u64,
    pub over: u64,
}

// What is under way. Never a movement and a warning together.
#[derive(Clone, Copy)]
pub enum Activity {
    Still,
    Moving(Movement),
    Warned(Warning),
}

// A duration that is running: its slot empties at `due`.
#[derive(Clone, Copy)]
pub struct Timer {
    pub slot: u8,
    pub due: u64,
}

// A command's duration field: so many milliseconds, 0, or FFFFFFFF.
#[derive(Clone, Copy)]
pub enum Duration {
    Lasts(u32),
    Cancels,
    Omitted,
}

// The lighting operations, with their REALs as they were written.
#[derive(Clone, Copy)]
pub enum Operation {
    Stop,
    FadeTo(f32),
    FadeToOver(f32, u32),
    RampTo(f32),
    RampToAtRate(f32, f32),
    StepUp,
    StepDown,
    StepUpBy(f32),
    StepDownBy(f32),
    Goto(f32),
    Relinquish,
}

#[derive(Clone, Copy)]
pub struct Command {
    pub operation: Operation,
    pub duration: Duration,
}

// The fields of an operation, from left to right: level, rate, step and fade time. Each is there or not: a
// REAL as it was written, or a time.
#[derive(Clone, Copy)]
pub struct OperationFields {
    pub level: Option<f32>,
    pub rate: Option<f32>,
    pub step: Option<f32>,
    pub fade: Option<u32>,
}

// ---- an output, whole

#[derive(Clone, Copy)]
pub struct Output {
    pub settings: Settings,
    pub slots: Slots,
    pub activity: Activity,
    pub timer: Option<Timer>,
    // Elapsed_Active_Time in milliseconds, the paper's burning time.
    pub burning: u64,
    pub last: Command,
    pub relay: Relay,
}

// ---- answers and stations

// What a frame is answered.
// Stays: a refusal by its number, as the paper names this enum (docs/PROMISES.md, 'Language forms by place').
// A lent station record holds any number (`panel::frame`, of every lent table).
#[derive(Clone, Copy)]
pub enum Answer {
    Done,
    Value(u32),
    Absent,
    Refused(u8),
}

// The ends of the ranges of a set of parameters (§6): stations and outputs from 1, the two times from
// LEAST_TIME; fades to four hours (§7).
pub const MOST_STATIONS: u32 = 32;

pub const MOST_OUTPUTS: u32 = 64;

pub const LEAST_TIME: u32 = 100;

pub const MOST_FADE: u32 = 14_400_000;

pub const MOST_DURATION: u32 = 86_400_000;

// The set of parameters that a panel is started with. Which numbers it may have, the definitions say
// (`startable` of specs/Paper/Startable.antt).
#[derive(Clone, Copy)]
pub struct Parameters {
    // How many station records and how many outputs there are
    pub stations: u32,
    pub outputs: u32,
    // The longest fade time and the longest duration
    pub fade: u32,
    pub duration: u32,
}

// ---- requests

// The paper's properties 01 to 14, 17 to 1B and, as SlotValue 0 to 15, 21 to 30.
#[derive(Clone, Copy)]
pub enum Property {
    RelinquishDefault,
    FadeTime,
    RampRate,
    StepIncrement,
    BlinkEnable,
    BlinkTime,
    BlinkWarnDelay,
    MinValue,
    MaxValue,
    CommandPriority,
    ElapsedActiveTime,
    PresentValue,
    ProgressValue,
    InProcess,
    LastOperation,
    LastLevel,
    LastRate,
    LastStep,
    LastFadeTime,
    LastDuration,
    BinaryActiveValue,
    BinaryInactiveValue,
    Polarity,
    BinaryPresentValue,
    RelayState,
    SlotValue(u8),
    Unknown,
}

// What a property's value must be, and how it is kept (`row_of` of specs/Paper/Rows.antt has the row of each
// property).
#[derive(Clone, Copy)]
pub enum Range {
    // REAL 0 to 100, kept as a level
    Percent,
    // REAL 1 to 100, kept as a level
    Limit,
    // REAL 0.125 to 100, kept as it was written
    Amount,
    // A whole number; both ends belong to the range
    Whole { low: u32, high: u32 },
    // 1 to 16 but 6, kept as its slot
    Priority,
    // Never written
    ReadOnly,
}

// What a frame asks of its output.
#[derive(Clone, Copy)]
pub enum OutputRequest {
    Write { slot: u8, level: u32 },
    Empty { slot: u8 },
    // The value as it is kept: in units, a REAL's pattern, the number itself, or the slot.
    Change { property: Property, value: u32 },
    Read(Property),
    Commands(Command),
}

// What a frame's fields come to: what they ask of its output, or the refusal that they meet, 9 to 12, 14 or
// 15 (a read of an unknown property meets its 9 when it is answered).
pub type Asked = Result<OutputRequest, Refusal>;

// What the panel is asked: something of the frame's own output, and of no other. A request to the whole table
// is a case of its own here.
#[derive(Clone, Copy)]
pub enum PanelRequest {
    ToOutput(OutputRequest),
}

// What a frame asks of the panel; or nothing, by the refusal that its fields meet.
pub type Request = Result<PanelRequest, Refusal>;

// What the fields ask of the frame's own output, as a request to the panel.
pub fn as_request(asked: Asked) -> Request
    ensures { result ≡ as_request asked }
{
    asked.map(PanelRequest::ToOutput)
}

// ---- results of acting

// The slots and the activity that a command makes.
#[derive(Clone, Copy)]
pub struct Effect {
    pub slots: Slots,
    pub activity: Activity,
}

#[derive(Clone, Copy)]
pub struct Outcome {
    pub output: Output,
    pub answer: Answer,
}
