// What fields hold.

use apdu::{Bytes, Text};

/// The name of the service provider, EF_SPN.
#[derive(Drop)]
pub struct Spn {
    /// Where the name is to be shown, as the card writes it.
    pub show: u8,
    pub name: Text,
}

/// Administrative data, EF_AD.
#[derive(Clone, Copy, Debug, PartialEq, Eq)]
pub struct Ad {
    /// The mode in which the terminal operates, as the card writes it.
    pub mode: u8,
    /// How many digits of the network's code the IMSI has, two or three, where the card tells it.
    pub mnc: Option<u8>,
}

/// An application of a card, a row of EF_DIR.
#[derive(Drop)]
pub struct AppRow {
    pub aid: Bytes,
    /// The label as the card writes it, which is empty where it has none.
    pub label: Bytes,
}
