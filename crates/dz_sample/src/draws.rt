// Draws from a seed.

/// The state behind the draws so far.
#[derive(Drop)]
pub(crate) struct Draws {
    state: u32,
}

impl Draws {
    ghost use Rattle.std.specs.Prelude.{◌≡◌, ◌<◌};
    ghost use Rattle.dz_sample.specs.Draws.{drawn_number, next_state, state_of};

    /// Nothing is drawn yet.
    pub(crate) fn new(seed: u32) -> Draws
        ensures { state_of result ≡ seed }
    {
        Draws { state: seed }
    }

    /// Draws a number below `most`.
    pub(crate) fn draw(&mut self, most: u32) -> u32
        requires { 0 < most }
        ensures state { state_of self.new ≡ next_state (state_of self.old) }
        ensures drawn { result ≡ drawn_number most (state_of self.new) }
        ensures below { result < most }
    {
        let next = (u64::from(self.state) * 1_103_515_245 + 12_345) % (1 << 31);
        self.state = next as u32;
        self.state / 65_536 % most
    }
}
