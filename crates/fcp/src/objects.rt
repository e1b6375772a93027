// The objects of a template that are read.
ghost use Rattle.std.specs.Prelude.{◌≡◌, None, Some, IfOk, IfErr, OnOk};
ghost use Rattle.tlv.specs.Objects.{ber_parts};
ghost use Rattle.fcp.specs.Objects.{objects_of};

use std::marker::Model;
use tlv::{BerReader, TlvError};

/// The values of the objects of a template that are read, each of the first object of its tag.
#[derive(Drop)]
pub struct FoundObjects<'a> {
    pub descriptor: Option<&'a [u8]>,
    pub file_id: Option<&'a [u8]>,
    pub life_cycle: Option<&'a [u8]>,
    pub reference: Option<&'a [u8]>,
    pub size: Option<&'a [u8]>,
}

impl<'a> Model for FoundObjects<'a> {
    ghost use Rattle.std.specs.Option.{option_copied};
    ghost use Rattle.fcp.specs.Objects.{Objects};

    ghost Value = { Objects };

    ghost view = { λ o. record { descriptor = option_copied o.descriptor; file_id = option_copied o.file_id; life_cycle = option_copied o.life_cycle; reference = option_copied o.reference; size = option_copied o.size } };
}

impl<'a> FoundObjects<'a> {
    /// The objects of a template, which is read to its end.
    pub fn of(template: &'a [u8]) -> Result<FoundObjects<'a>, TlvError>
        ensures whole { OnOk result ((ber_parts template.now).damage ≡ None) }
        ensures value { IfOk result (λ objects. objects
            ≡ objects_of (ber_parts template.now).parts) }
        ensures damage { IfErr result (λ error. (ber_parts template.now).damage ≡ Some error) }
    {
        Ok(FoundObjects {
            descriptor: BerReader::new(template).first_value(0x82)?,
            file_id: BerReader::new(template).first_value(0x83)?,
            life_cycle: BerReader::new(template).first_value(0x8A)?,
            reference: BerReader::new(template).first_value(0x8B)?,
            size: BerReader::new(template).first_value(0x80)?,
        })
    }
}
