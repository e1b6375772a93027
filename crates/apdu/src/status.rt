// The status word of a response, ETSI TS 102 221 clause 10.2.1.
ghost use Rattle.std.specs.Prelude.{◌≡◌};
ghost use Rattle.apdu.specs.Apdu.{is_success as is_success_word};

/// A status word.
#[derive(Clone, Copy, Debug, PartialEq, Eq)]
pub struct Sw(pub u16);

impl Sw {
    /// Whether the command was carried out: 9000, or 91XX, which announces a proactive command.
    pub fn is_success(self) -> bool
        ensures { result ≡ is_success_word self.0 }
    {
        self.0 == 0x9000 || self.0 / 256 == 0x91
    }
}
