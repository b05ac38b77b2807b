//! Numbers drawn one after another.
ghost use Rattle.std.specs.Prelude.{◌≡◌, ◌<◌, ◌^◌};
ghost use Rattle.pv_made.specs.Circles.{next_state, drawn_from};

/// What is drawn next follows from the last state alone.
#[derive(Clone, Copy)]
pub(crate) struct Draws {
    pub(crate) state: u64,
}

impl Draws {
    /// The next number, below 32,768.
    #[tactic(auto, unfolding(crate::specs::Circles::next_state, crate::specs::Circles::drawn_from))]
    pub(crate) fn next(&mut self) -> u64
        requires { self.old.state < 2 ^ 31 }
        ensures state { self.new.state ≡ next_state self.old.state }
        ensures small { self.new.state < 2 ^ 31 }
        ensures drawn { result ≡ drawn_from self.new.state }
    {
        self.state = (self.state * 1_103_515_245 + 12_345) % 2_147_483_648;
        self.state / 65_536
    }
}
