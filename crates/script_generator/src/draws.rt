// Pseudo-random draws.
ghost use Rattle.std.specs.Prelude.{◌≡◌, ◌<◌, ◌+◌, ◌*◌, ◌%◌, ◌^◌};
ghost use Rattle.script_generator.specs.Draws.{next, behind, drawn, draw};
ghost use Rattle.script_generator.specs.Generated.{digit_pair, number};

/// What the next draws depend on.
#[derive(Drop)]
pub(crate) struct Draws {
    state: u64,
    ghost fits: { state < 2 ^ 32 },
}

impl Draws {
    pub(crate) fn from_seed(seed: u32) -> Draws
        ensures { result.state ≡ seed }
    {
        Draws { state: seed as u64 }
    }

    /// The next draw, below 32,768.
    pub(crate) fn draw(&mut self) -> u64
        ensures state { self.new.state ≡ next self.old.state }
        ensures value { result ≡ draw self.old.state 1 }
    {
        self.state = (1_103_515_245 * self.state + 12_345) % 2_147_483_648;
        self.state / 65_536
    }

    fn digit(&mut self) -> u8
        ensures state { self.new.state ≡ next self.old.state }
        ensures value { result ≡ draw self.old.state 1 % 10 }
    {
        (self.draw() % 10) as u8
    }

    /// Two digits in one byte, the first in the low half.
    fn digit_pair(&mut self) -> u8
        ensures state { self.new.state ≡ behind self.old.state 2 }
        ensures value { result ≡ digit_pair self.old.state }
    {
        let low = self.digit();
        let high = self.digit();
        low + 16 * high
    }

    /// Ten digits.
    pub(crate) fn number(&mut self) -> [u8; 5]
        ensures state { self.new.state ≡ behind self.old.state 10 }
        ensures value { result ≡ number self.old.state }
    {
        let first = self.digit_pair();
        let second = self.digit_pair();
        let third = self.digit_pair();
        let fourth = self.digit_pair();
        let fifth = self.digit_pair();
        [first, second, third, fourth, fifth]
    }
}
