// The cards, changes and faults with which a run of a script begins.
ghost use Rattle.std.specs.Prelude.{◌≡◌, true, IfOk, All};
ghost use Rattle.std.specs.List.{list_all};
ghost use Rattle.card_model.specs.Limits.{IsFittingCard, IsFittingChange, HasRoom};
ghost use Rattle.script_reader.specs.Files.{is_kind_within, has_rows};
ghost use Rattle.script_reader.specs.Rules.{keeps_rules};
ghost use Rattle.script_reader.specs.World as spec;
ghost use Rattle.script_reader.specs.World.{first_world};

use crate::{CardSpec, ChangeSpec, FileSpec, KeySpec, KindSpec, Script};
use apdu::{Bytes, Make, Memory, Sequence};
use card_model::{
    ArmedList, CardFiles, CardState, Change, Changes, ChannelList, ChannelState, Faults, FileState,
    Images, PinState,
};
use fcp::Rows;
use std::alloc::Global;

/// What a file holds.
fn rows_of(alloc: Global, kind: &KindSpec) -> Result<Rows, Memory>
    requires within { is_kind_within kind.now ≡ true }
    requires rows { has_rows kind.now ≡ true }
    ensures { IfOk result (λ r. r ≡ spec.content_of kind.now) }
{
    match kind {
        KindSpec::Transparent { bytes } => Rows::transparent(alloc, bytes.as_slice()),
        KindSpec::Linear { len, rows } => Rows::from_rows(alloc, *len, rows.as_slice()),
    }
}

fn copy_of(alloc: Global, bytes: &Option<Bytes>) -> Result<Option<Bytes>, Memory>
    ensures { IfOk result (λ b. b ≡ bytes.now) }
{
    match bytes {
        Some(bytes) => Ok(Some(Bytes::from_slice(alloc, bytes.as_slice())?)),
        None => Ok(None),
    }
}

impl Make for FileSpec {
    type Made = FileState;

    ghost use Rattle.script_reader.specs.World.{is_file, file_of};

    ghost can_make = { is_file };

    ghost made = { file_of };

    fn make(&self, alloc: Global) -> Result<FileState, Memory> {
        Ok(FileState {
            path: self.path.copy(),
            rows: rows_of(alloc, &self.kind)?,
            active: self.active,
            arr: self.arr,
            endless: self.endless,
            fcp: copy_of(alloc, &self.fcp)?,
        })
    }
}

impl Make for KeySpec {
    type Made = PinState;

    ghost use Rattle.script_reader.specs.World.{pin_of};

    ghost can_make = { λ _. true };

    ghost made = { pin_of };

    fn make(&self, _alloc: Global) -> Result<PinState, Memory> {
        Ok(PinState {
            key: self.key,
            secret: self.pin,
            tries: self.tries,
            max: self.max,
            verified: false,
        })
    }
}

/// A card before its first insertion: the basic channel alone is open, at the master file.
impl Make for CardSpec {
    type Made = CardState;

    ghost use Rattle.script_reader.specs.Cards.{is_card};
    ghost use Rattle.script_reader.specs.World.{card_of};

    ghost can_make = { is_card };

    ghost made = { card_of };

    #[tactic(auto, using(crate::proofs::Fits::card_files))]
    fn make(&self, alloc: Global) -> Result<CardState, Memory> {
        let files = Sequence::made_from(alloc, self.files.as_slice())?;
        let mut channels = ChannelList::new();
        channels.push(ChannelState {
            number: 0,
            app: None,
            current: None,
        })?;
        Ok(CardState {
            files: CardFiles::from_sequence(files)?,
            aids: Sequence::made_from(alloc, self.aids.as_slice())?,
            keys: Sequence::made_from(alloc, self.keys.as_slice())?,
            channels,
            free: self.channels,
            armed: ArmedList::new(),
            awaiting: false,
            waiting: None,
            get_response: self.get_response,
        })
    }
}

impl Make for ChangeSpec {
    type Made = Change;

    ghost use Rattle.script_reader.specs.Cards.{is_change};
    ghost use Rattle.script_reader.specs.World.{change_of};

    ghost can_make = { is_change };

    ghost made = { change_of };

    #[tactic(auto, using(crate::proofs::Fits::change_files))]
    fn make(&self, alloc: Global) -> Result<Change, Memory> {
        Ok(Change {
            qualifier: self.qualifier,
            kind: self.kind,
            list: Sequence::made_from(alloc, self.list.as_slice())?,
            files: Sequence::made_from(alloc, self.files.as_slice())?,
        })
    }
}

impl Script {
    /// The cards before the run, as a simulated slot takes them.
    pub fn images(&self, alloc: Global) -> Result<Images, Memory>
        requires { keeps_rules self.now ≡ true }
        ensures value { IfOk result (λ cards. cards ≡ (first_world self.now).cards) }
        ensures fits { IfOk result (λ cards. All IsFittingCard cards) }
        ensures room { IfOk result (λ cards. All (HasRoom (first_world self.now).changes) cards) }
    {
        Sequence::made_from(alloc, self.cards.as_slice())
    }

    /// The changes that may be armed, as a simulated slot takes them.
    pub fn changes(&self, alloc: Global) -> Result<Changes, Memory>
        requires { keeps_rules self.now ≡ true }
        ensures value { IfOk result (λ changes. changes ≡ (first_world self.now).changes) }
        ensures fits { IfOk result (λ changes. All IsFittingChange changes) }
    {
        Sequence::made_from(alloc, self.changes.as_slice())
    }

    /// The calls that fail, as a simulated slot takes them.
    pub fn faults(&self, alloc: Global) -> Result<Faults, Memory>
        ensures { IfOk result (λ faults. faults ≡ self.now.faults) }
    {
        Faults::from_slice(alloc, self.faults.as_slice())
    }
}
