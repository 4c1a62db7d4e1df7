// Panel time as a frame carries it: milliseconds, in six bytes.
#![tactic(auto)]

ghost use Rattle.std.specs.Prelude.{◌≡◌, ◌<◌, ◌^◌, ◌+◌};

// A moment, from which a movement, a warning or a duration starts. It is below 2^48, so that a length of 32
// bits, and two of them, can be added to it.
#[derive(Clone, Copy)]
pub struct PanelTime {
    pub milliseconds: u64,
    ghost within_six_bytes: { milliseconds < 2 ^ 48 },
}

impl PanelTime {
    pub fn new(milliseconds: u64) -> PanelTime
        requires { milliseconds < 2 ^ 48 }
        ensures { result.milliseconds ≡ milliseconds }
    {
        PanelTime { milliseconds }
    }

    // The moment so many milliseconds later.
    pub fn later(self, length: u32) -> u64
        ensures { result ≡ self.milliseconds + length }
    {
        self.milliseconds + u64::from(length)
    }
}
