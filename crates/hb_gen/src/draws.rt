// The draws of the generator.
ghost use Rattle.std.specs.Prelude.{◌≡◌, ◌<◌, ◌%◌};
ghost use Rattle.hb_gen.specs.Draws.{next_state, draw};

// Knuth's multiplier, and what is added to each product.
const MULTIPLIER: u64 = 6_364_136_223_846_793_005;

const INCREMENT: u64 = 1_442_695_040_888_963_407;

// A linear congruential sequence, of which each state gives its upper half.
#[derive(Drop)]
pub(crate) struct Draws {
    state: u64,
}

impl Draws {
    // The draws behind a state.
    pub(crate) fn from_state(state: u64) -> Draws
        ensures { result.state ≡ state }
    {
        Draws { state }
    }

    // The next draw, brought below a limit.
    #[tactic(auto, unfolding(crate::specs::Draws::next_state))]
    pub(crate) fn below(&mut self, limit: u32) -> u32
        requires { 0 < limit }
        ensures state { self.new.state ≡ next_state self.old.state }
        ensures value { result ≡ draw self.old.state % limit }
        ensures small { result < limit }
    {
        self.state = self.state.wrapping_mul(MULTIPLIER).wrapping_add(INCREMENT);
        (self.state >> 32) as u32 % limit
    }
}
