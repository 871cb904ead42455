// The numbers of a linear congruential generator.
ghost use Rattle.std.specs.Prelude.{◌≡◌, ◌<◌, ◌^◌, pos};
ghost use Rattle.ember_algebra.specs.Size.{Small};
ghost use Rattle.ember_gen.specs.Numbers.{next, drawn, place, side, state};

// A linear congruential generator, by its last number.
#[derive(Drop)]
pub struct Numbers {
    last: u64,
    ghost small: { last < 2 ^ 31 },
}

impl Numbers {
    /// The generator at its start. Each start gives the same numbers.
    #[tactic(auto, unfolding(crate::specs::Numbers::state))]
    pub fn new() -> Numbers
        ensures { result.last ≡ state 0 }
    {
        Numbers { last: 1 }
    }

    // The high bits of the next number.
    fn draw(&mut self) -> u32
        ensures next { self.new.last ≡ next self.old.last }
        ensures drawn { result ≡ drawn self.new.last }
    {
        self.last = (1_103_515_245 * self.last + 12_345) % 2_147_483_648;
        (self.last / 65_536) as u32
    }

    /// Draws a coordinate from -1792 to 1791, in units.
    pub fn place(&mut self) -> i32
        ensures next { self.new.last ≡ next self.old.last }
        ensures place { result ≡ place (drawn self.new.last) }
        ensures small { Small 1792 result }
    {
        (self.draw() % 3584) as i32 - 1792
    }

    /// Draws a side from 1 to 256, in units.
    pub fn side(&mut self) -> i32
        ensures next { self.new.last ≡ next self.old.last }
        ensures side { result ≡ pos (side (drawn self.new.last)) }
        ensures small { Small 256 result }
    {
        1 + (self.draw() % 256) as i32
    }
}
