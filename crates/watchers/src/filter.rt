// What a watching actor asks for.
ghost use Rattle.std.specs.Prelude.{◌≡◌, ◌^◌, ◌/◌, ◌%◌, ◌==◌, ℕ};
ghost use Rattle.watchers.specs.Watching as spec;

/// A publication that watching actors are told of.
#[derive(Clone, Copy, Debug, PartialEq, Eq)]
pub struct Notice {
    /// The number of the publication.
    pub number: u64,
    /// None for the end of an epoch.
    pub family: Option<u8>,
    pub epoch: u64,
    /// The point of the epoch; for its end, the event that ended it.
    pub point: u64,
}

// The bit of a mask that asks for the end of an epoch.
const EPOCH_END: u8 = 7;

#[tactic(auto, using(crate::proofs::Bits::high_bit))]
fn is_set(mask: u8, bit: u8) -> bool
    ensures { result ≡ ((mask / 2 ^ bit) % 2 == 1) }
{
    bit < 8 && (mask >> bit) % 2 == 1
}

/// Whether a mask asks for publications of this family, or without one for the end of an epoch.
pub fn wants(mask: u8, family: Option<u8>) -> bool
    ensures { result ≡ spec.wants mask family }
{
    match family {
        None => is_set(mask, EPOCH_END),
        Some(family) => is_set(mask, family),
    }
}

/// What picks the notices of a watching actor.
pub trait Filter {
    /// The mask that it answers for: bit f for family f, and bit 7 for an epoch's end.
    ghost mask: { Self → ℕ };

    fn wants(&self, notice: &Notice) -> bool
        ensures { result ≡ spec.wants (mask self.now) notice.now.family };
}

/// Picks by a mask.
#[derive(Clone, Copy, Debug, PartialEq, Eq)]
pub struct MaskFilter {
    /// Bit f for family f, and bit 7 for an epoch's end.
    pub mask: u8,
}

impl Filter for MaskFilter {
    ghost mask = { λ f. f.mask };

    fn wants(&self, notice: &Notice) -> bool {
        wants(self.mask, notice.family)
    }
}
