// The draws of the trials.
ghost use Rattle.std.specs.Prelude.{◌≡◌};
ghost use Rattle.trial_calls.specs.Draws.{next_draw, swapped};

// A draw of a linear congruential generator; its better half is above.
#[derive(Clone, Copy, Debug, PartialEq, Eq)]
pub struct Draw(pub u32);

impl Draw {
    pub fn next(self) -> Draw
        ensures next { result.0 ≡ next_draw self.0 }
    {
        Draw(self.0.wrapping_mul(1664525).wrapping_add(1013904223))
    }

    // The draw with its better half below.
    pub fn word(self) -> u32
        ensures word { result ≡ swapped self.0 }
    {
        self.0 % 0x1_0000 * 0x1_0000 + self.0 / 0x1_0000
    }
}
