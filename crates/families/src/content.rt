// What the files of a family are decoded to.

use adn::Book;
use apdu::{Sequence, Text};
use sim_codecs::{Ad, AppRow, Spn};

/// What is read of a file or of a row.
#[derive(Drop)]
pub enum Field<T> {
    /// There is no such file, the file is of another kind, or the row is empty.
    Absent,
    Present(T),
    /// It is damaged at the byte of this index, which is its length where it is too short.
    Malformed { at: usize },
}

/// The card's number, its subscriber, the service provider, and the card's applications: ETSI TS 102 221
/// clause 13 and 3GPP TS 31.102 clause 4.2.
#[derive(Drop)]
pub struct Records {
    pub iccid: Field<Text>,
    pub imsi: Field<Text>,
    pub ad: Field<Ad>,
    pub spn: Field<Spn>,
    /// The subscriber's own numbers.
    pub msisdn: Book,
    /// The rows of EF_DIR, in their order.
    pub applications: Sequence<Field<AppRow>>,
}

/// What the files of one of the three families are decoded to.
#[derive(Drop)]
pub enum StandardContent {
    Records(Records),
    /// The rows of the phonebook or of the fixed dialling numbers.
    Book(Book),
}
