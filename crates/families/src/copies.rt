// Copies of what files are decoded to.
ghost use Rattle.std.specs.Prelude.{◌≡◌, ◌++◌, IfOk};

use crate::{Field, Records};
use adn::copy_book;
use apdu::{Bytes, Memory, Sequence, Text};
use sim_codecs::{Ad, AppRow, Spn};
use std::alloc::Global;

/// What can be copied.
pub(crate) trait Copies: Sized {
    fn copied(&self, alloc: Global) -> Result<Self, Memory>
        ensures { IfOk result (λ copy. copy ≡ self.now) };
}

impl Copies for Text {
    fn copied(&self, alloc: Global) -> Result<Text, Memory> {
        Text::from_str(alloc, self.as_str())
    }
}

impl Copies for Ad {
    fn copied(&self, _alloc: Global) -> Result<Ad, Memory> {
        Ok(*self)
    }
}

impl Copies for Spn {
    fn copied(&self, alloc: Global) -> Result<Spn, Memory> {
        Ok(Spn {
            show: self.show,
            name: self.name.copied(alloc)?,
        })
    }
}

impl Copies for AppRow {
    fn copied(&self, alloc: Global) -> Result<AppRow, Memory> {
        Ok(AppRow {
            aid: Bytes::from_slice(alloc, self.aid.as_slice())?,
            label: Bytes::from_slice(alloc, self.label.as_slice())?,
        })
    }
}

impl<T: Copies> Copies for Field<T> {
    fn copied(&self, alloc: Global) -> Result<Field<T>, Memory> {
        match self {
            Field::Absent => Ok(Field::Absent),
            Field::Present(value) => Ok(Field::Present(value.copied(alloc)?)),
            Field::Malformed { at } => Ok(Field::Malformed { at: *at }),
        }
    }
}

/// Copies of a list's items.
fn copies_of<T: Copies + Drop>(alloc: Global, items: &[T]) -> Result<Sequence<T>, Memory>
    ensures { IfOk result (λ copies. copies ≡ items.now) }
{
    let mut copies = Sequence::new(alloc);
    for item in items {
        copies.push(item.copied(alloc)?)?;
    }
    Ok(copies)
}

impl Copies for Records {
    fn copied(&self, alloc: Global) -> Result<Records, Memory> {
        Ok(Records {
            iccid: self.iccid.copied(alloc)?,
            imsi: self.imsi.copied(alloc)?,
            ad: self.ad.copied(alloc)?,
            spn: self.spn.copied(alloc)?,
            msisdn: copy_book(alloc, &self.msisdn)?,
            applications: copies_of(alloc, self.applications.as_slice())?,
        })
    }
}
