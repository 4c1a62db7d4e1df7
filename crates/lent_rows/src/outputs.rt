// An output's record as the numbers of a row, and back. After its place: settings 1 to 10, the live slots
// 11, levels 12 to 27, what is under way 28 to 35, the duration 36 to 38, burning time 39, the last command
// 40 to 44, the relay 45 to 48.
// Stays: what may not change. Numbers for kinds are the rows' text, which the program `lent_tables` reads and
// writes.
ghost use Rattle.std.proofs.Common.{rules};

use super::numbers::Narrow;
use super::{NUMBERS, Record};
use lighting_outputs::{
    Activity, Command, Duration, Movement, Operation, Output, Pace, Phase, Relay, SLOTS, Settings,
    Slots, Timer, Warning,
};
use number_level::{bits_of, real_from};

impl Record for Output {
    ghost LENGTH = { 49 };

    ghost within = { Prim.search rules };

    const LETTER: u8 = b'o';

    const LENGTH: usize = NUMBERS;

    fn of(row: &[u64; NUMBERS]) -> Output {
        Output {
            settings: settings_of(row),
            slots: slots_of(row),
            activity: activity_of(row),
            timer: timer_of(row),
            burning: row[39],
            last: command_of(row),
            relay: relay_of(row),
        }
    }

    fn row(self, at: usize) -> [u64; NUMBERS] {
        let mut n = [0; NUMBERS];
        n[0] = at as u64;
        put_settings(&mut n, self.settings);
        put_slots(&mut n, self.slots);
        put_activity(&mut n, self.activity);
        put_timer(&mut n, self.timer);
        n[39] = self.burning;
        put_command(&mut n, self.last);
        put_relay(&mut n, self.relay);
        n
    }

    fn fresh() -> Output {
        output_fresh::fresh_output(panel_record::four_hours(1))
    }
}

// ---- from numbers to a record

fn settings_of(n: &[u64; NUMBERS]) -> Settings {
    Settings {
        default: n[1].narrow(),
        fade: n[2].narrow(),
        ramp: real_from(n[3].narrow()),
        step: real_from(n[4].narrow()),
        enable: 0 < n[5],
        blink: n[6].narrow(),
        delay: n[7].narrow(),
        min: n[8].narrow(),
        max: n[9].narrow(),
        slot: n[10].narrow(),
    }
}

fn slots_of(n: &[u64; NUMBERS]) -> Slots {
    let mut levels = [0; SLOTS];
    for (level, number) in levels.iter_mut().zip(&n[12..]) {
        *level = number.narrow();
    }
    Slots {
        live: n[11].narrow(),
        levels,
    }
}

fn activity_of(n: &[u64; NUMBERS]) -> Activity {
    match n[28] {
        0 => Activity::Still,
        1 => Activity::Moving(movement_of(n)),
        _ => Activity::Warned(warning_of(n)),
    }
}

fn movement_of(n: &[u64; NUMBERS]) -> Movement {
    Movement {
        owner: n[29].narrow(),
        start: n[30].narrow(),
        target: n[31].narrow(),
        length: n[32].narrow(),
        over: n[33],
        pace: match n[34] {
            0 => Pace::Fade,
            _ => Pace::Ramp(n[35].narrow()),
        },
    }
}

fn warning_of(n: &[u64; NUMBERS]) -> Warning {
    Warning {
        phase: match n[29] {
            0 => Phase::Blink,
            _ => Phase::Delay,
        },
        owner: n[30].narrow(),
        level: n[31].narrow(),
        turn: n[32],
        over: n[33],
    }
}

fn timer_of(n: &[u64; NUMBERS]) -> Option<Timer> {
    match n[36] {
        0 => None,
        _ => Some(Timer {
            slot: n[37].narrow(),
            due: n[38],
        }),
    }
}

fn command_of(n: &[u64; NUMBERS]) -> Command {
    Command {
        operation: operation_of(n[40], n[41].narrow(), n[42].narrow()),
        duration: match n[43] {
            0 => Duration::Omitted,
            1 => Duration::Cancels,
            _ => Duration::Lasts(n[44].narrow()),
        },
    }
}

// The operations by their numbers; a is a REAL's pattern, b another's or a time.
fn operation_of(kind: u64, a: u32, b: u32) -> Operation {
    match kind {
        0 => Operation::Stop,
        1 => Operation::FadeTo(real_from(a)),
        2 => Operation::FadeToOver(real_from(a), b),
        3 => Operation::RampTo(real_from(a)),
        4 => Operation::RampToAtRate(real_from(a), real_from(b)),
        5 => Operation::StepUp,
        6 => Operation::StepDown,
        7 => Operation::StepUpBy(real_from(a)),
        8 => Operation::StepDownBy(real_from(a)),
        9 => Operation::Goto(real_from(a)),
        _ => Operation::Relinquish,
    }
}

fn relay_of(n: &[u64; NUMBERS]) -> Relay {
    Relay {
        active: n[45].narrow(),
        inactive: n[46].narrow(),
        reverse: 0 < n[47],
        binary: 0 < n[48],
    }
}

// ---- and back: each part is put in its place in a row of zeros

fn put_settings(n: &mut [u64; NUMBERS], settings: Settings) {
    n[1] = u64::from(settings.default);
    n[2] = u64::from(settings.fade);
    n[3] = u64::from(bits_of(settings.ramp));
    n[4] = u64::from(bits_of(settings.step));
    n[5] = u64::from(settings.enable);
    n[6] = u64::from(settings.blink);
    n[7] = u64::from(settings.delay);
    n[8] = u64::from(settings.min);
    n[9] = u64::from(settings.max);
    n[10] = u64::from(settings.slot);
}

fn put_slots(n: &mut [u64; NUMBERS], slots: Slots) {
    n[11] = u64::from(slots.live);
    for (number, level) in n[12..].iter_mut().zip(&slots.levels) {
        *number = u64::from(*level);
    }
}

fn put_activity(n: &mut [u64; NUMBERS], activity: Activity) {
    match activity {
        Activity::Still => {}
        Activity::Moving(movement) => put_movement(n, movement),
        Activity::Warned(warning) => put_warning(n, warning),
    }
}

fn put_movement(n: &mut [u64; NUMBERS], movement: Movement) {
    n[28] = 1;
    n[29] = u64::from(movement.owner);
    n[30] = u64::from(movement.start);
    n[31] = u64::from(movement.target);
    n[32] = u64::from(movement.length);
    n[33] = movement.over;
    if let Pace::Ramp(rate) = movement.pace {
        n[34] = 1;
        n[35] = u64::from(rate);
    }
}

fn put_warning(n: &mut [u64; NUMBERS], warning: Warning) {
    n[28] = 2;
    n[29] = match warning.phase {
        Phase::Blink => 0,
        Phase::Delay => 1,
    };
    n[30] = u64::from(warning.owner);
    n[31] = u64::from(warning.level);
    n[32] = warning.turn;
    n[33] = warning.over;
}

fn put_timer(n: &mut [u64; NUMBERS], timer: Option<Timer>) {
    if let Some(Timer { slot, due }) = timer {
        n[36] = 1;
        n[37] = u64::from(slot);
        n[38] = due;
    }
}

fn put_command(n: &mut [u64; NUMBERS], command: Command) {
    let (kind, a, b) = operands_of(command.operation);
    n[40] = kind;
    n[41] = u64::from(a);
    n[42] = u64::from(b);
    match command.duration {
        Duration::Omitted => {}
        Duration::Cancels => n[43] = 1,
        Duration::Lasts(lasts) => {
            n[43] = 2;
            n[44] = u64::from(lasts);
        }
    }
}

// `operation_of` the other way round.
fn operands_of(operation: Operation) -> (u64, u32, u32) {
    match operation {
        Operation::Stop => (0, 0, 0),
        Operation::FadeTo(level) => (1, bits_of(level), 0),
        Operation::FadeToOver(level, time) => (2, bits_of(level), time),
        Operation::RampTo(level) => (3, bits_of(level), 0),
        Operation::RampToAtRate(level, rate) => (4, bits_of(level), bits_of(rate)),
        Operation::StepUp => (5, 0, 0),
        Operation::StepDown => (6, 0, 0),
        Operation::StepUpBy(step) => (7, bits_of(step), 0),
        Operation::StepDownBy(step) => (8, bits_of(step), 0),
        Operation::Goto(level) => (9, bits_of(level), 0),
        Operation::Relinquish => (10, 0, 0),
    }
}

fn put_relay(n: &mut [u64; NUMBERS], relay: Relay) {
    n[45] = u64::from(relay.active);
    n[46] = u64::from(relay.inactive);
    n[47] = u64::from(relay.reverse);
    n[48] = u64::from(relay.binary);
}
