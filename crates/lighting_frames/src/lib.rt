// Frames of the dimming panel, commands in tags, and stations: the types. The definitions of specs/ are over
// these very types, and so is the code of the crates above.
#![tactic(auto)]

use lighting_outputs::{Answer, Operation, Request};

// ---- a command in BACnet's own tagging (§1 of the change requests)

// The content of a field behind its context tag: of how many octets it is, and the number that they spell, a
// REAL's pattern for a REAL.
#[derive(Clone, Copy)]
pub struct TagContent {
    pub count: u8,
    pub value: u32,
}

// The fields of a tagged command, in the order of their tags, 0 to 5, each there or not.
#[derive(Clone, Copy)]
pub struct TagFields {
    pub operation: Option<TagContent>,
    pub level: Option<TagContent>,
    pub rate: Option<TagContent>,
    pub step: Option<TagContent>,
    pub fade: Option<TagContent>,
    pub duration: Option<TagContent>,
}

// The most bytes of a tagged command. The definitions have the same number, `most_tagged`.
pub const MOST_TAGGED: usize = 17;

// A tagged command as a frame carries it after the 13 common bytes: how many bytes there are, and they, with
// zeros after them.
#[derive(Clone, Copy)]
pub struct TaggedBody {
    pub length: u8,
    pub bytes: [u8; MOST_TAGGED],
}

// What a body in tags is read as: an operation and its duration, there or not.
#[derive(Clone, Copy)]
pub struct TaggedCommand {
    pub operation: Operation,
    pub duration: Option<u32>,
}

// The bytes of the longest frame: no kind has more. The definitions have the same number, `longest_frame`.
pub const LONGEST_FRAME: usize = 31;

// What a station was answered last, to which number and which frame: a retransmission, the paper's copy, is
// known by them. Number 0: none yet.
#[derive(Clone, Copy)]
pub struct Station {
    pub answer: Answer,
    pub number: u32,
    pub frame: [u8; LONGEST_FRAME],
}

// ---- kinds of frames

// What a call asks of its output, by its kind: 02 to 05, then the commands, 10 to 1A, and a command in tags,
// 1B.
#[derive(Clone, Copy)]
pub enum Action {
    WritesLevel,
    EmptiesSlot,
    WritesProperty,
    ReadsProperty,
    Stops,
    FadesTo,
    FadesToOver,
    RampsTo,
    RampsToAtRate,
    StepsUp,
    StepsDown,
    StepsUpBy,
    StepsDownBy,
    GoesTo,
    Relinquishes,
    CommandsTagged,
}

// What a kind byte says: none that is known, a clock, or a call of a station.
#[derive(Clone, Copy)]
pub enum Kind {
    NoKind,
    ClockKind,
    CallKind(Action),
}

// A row of the table of kinds. The length is in bytes, the kind byte among them.
#[derive(Clone, Copy)]
pub struct KindRow {
    pub length: u32,
    pub kind: Kind,
}

// A call of a station: 'station (1), number (4), time (6), output (1)', and what its kind asks.
#[derive(Clone, Copy)]
pub struct Call {
    pub station: u8,
    pub number: u32,
    pub time: u64,
    pub output: u8,
    pub request: Request,
}

// A string of bytes as it is read, if no refusal from 2 to 5 is met: a clock, or a call.
#[derive(Clone, Copy)]
pub enum Frame {
    Clock(u64),
    Calls(Call),
}

// What is to be done with a frame that meets no refusal from 2 to 8.
#[derive(Clone, Copy)]
pub enum Verdict {
    Copied(Answer),
    Clocked(u64),
    Arrives(Call),
}
