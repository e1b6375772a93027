// The instructions that a card knows, ETSI TS 102 221 table 10.5 and TS 102 223 clause 6.
ghost use Rattle.std.specs.Prelude.{◌≡◌};
ghost use Rattle.card_model.specs.Instructions.{instruction_of, kind_of};

use apdu::ClassKind;

/// An instruction of the card's table.
#[derive(Clone, Copy, Debug, PartialEq, Eq)]
pub enum Instruction {
    Select,
    GetResponse,
    Status,
    ReadBinary,
    UpdateBinary,
    ReadRecord,
    UpdateRecord,
    Verify,
    ManageChannel,
    TerminalProfile,
    Fetch,
    TerminalResponse,
}

/// What a READ or an UPDATE is of: the bytes of a transparent file from an offset on, or a record of a linear one.
#[derive(Clone, Copy, Debug, PartialEq, Eq)]
pub enum Part {
    Binary,
    Record,
}

impl Instruction {
    /// The instruction of this byte; none where the table has no row for it.
    pub fn from_byte(ins: u8) -> Option<Instruction>
        ensures { result ≡ instruction_of ins }
    {
        match ins {
            0xA4 => Some(Instruction::Select),
            0xC0 => Some(Instruction::GetResponse),
            0xF2 => Some(Instruction::Status),
            0xB0 => Some(Instruction::ReadBinary),
            0xD6 => Some(Instruction::UpdateBinary),
            0xB2 => Some(Instruction::ReadRecord),
            0xDC => Some(Instruction::UpdateRecord),
            0x20 => Some(Instruction::Verify),
            0x70 => Some(Instruction::ManageChannel),
            0x10 => Some(Instruction::TerminalProfile),
            0x12 => Some(Instruction::Fetch),
            0x14 => Some(Instruction::TerminalResponse),
            _ => None,
        }
    }

    /// The kind of class that the instruction goes with.
    pub fn kind(self) -> ClassKind
        ensures { result ≡ kind_of self }
    {
        match self {
            Instruction::Select
            | Instruction::GetResponse
            | Instruction::ReadBinary
            | Instruction::UpdateBinary
            | Instruction::ReadRecord
            | Instruction::UpdateRecord
            | Instruction::Verify
            | Instruction::ManageChannel => ClassKind::Plain,
            Instruction::Status
            | Instruction::TerminalProfile
            | Instruction::Fetch
            | Instruction::TerminalResponse => ClassKind::Toolkit,
        }
    }
}
