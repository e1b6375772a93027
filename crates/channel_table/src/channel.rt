// A logical channel.
ghost use Rattle.std.specs.Prelude.{◌≡◌, ◌≤◌};
ghost use Rattle.channel_table.specs.Values.{IsNumber};

use std::marker::Model;

/// A logical channel that a card opened in an epoch (ETSI TS 102 221 clause 8.7). Contracts see its
/// number and the epoch. A channel cannot be copied, and must be spent: `Table::close` closes it.
pub struct Channel {
    number: u8,
    epoch: u64,
}

impl Model for Channel {
    ghost use Rattle.channel_table.specs.Values.{ChannelValue, IsNumber};

    ghost Value = { ChannelValue };

    ghost view = { λ c. record { number = c.number; epoch = c.epoch } };

    ghost invariant = { λ c. IsNumber c.number };
}

impl Channel {
    pub(crate) fn opened(number: u8, epoch: u64) -> Channel
        requires { IsNumber number }
        ensures { result ≡ record { number = number; epoch = epoch } }
    {
        Channel { number, epoch }
    }

    pub fn number(&self) -> u8
        ensures value { result ≡ self.now.number }
        ensures within { result ≤ 19 }
        ensures beside { IsNumber result }
    {
        self.number
    }

    pub fn epoch(&self) -> u64
        ensures { result ≡ self.now.epoch }
    {
        self.epoch
    }

    /// Spends the channel, and sends nothing.
    pub fn abandon(self) {
        let Channel {
            number: _,
            epoch: _,
        } = self;
    }
}
