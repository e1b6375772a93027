// Cards and changes, as JSON says them and with the rules that they keep.
ghost use Rattle.std.specs.Prelude.{◌≡◌};
ghost use Rattle.std.specs.List.{list_all};
ghost use Rattle.serde_json.specs.View.{view};
ghost use Rattle.script_reader.specs.Cards as spec;
ghost use Rattle.script_reader.specs.Files.{path_of as path_reading};
ghost use Rattle.script_reader.specs.Reading.{all_of};
ghost use Rattle.script_reader.specs.Answers.{ReadsAs};

use crate::error::ItemError;
use crate::fields::{FromJson, Ids, check, field, only, with_default};
use crate::files::{FileForm, are_all_apart, are_files_within, have_shape, path_of, with_paths};
use crate::parts::{Earlier, Item};
use crate::{
    CardSpec, CardSpecs, ChangeSpec, ChangeSpecs, FileSpec, FileSpecs, KeySpec, KeySpecs, Why,
};
use apdu::{Bytes, Path, Sequence};
use card_model::{AidList, PathList};
use serde_json::Value;
use std::alloc::Global;
use std::marker::Model;

impl FromJson for KeySpec {
    ghost use Rattle.script_reader.specs.Cards.{key_form};

    ghost form = { key_form };

    #[tactic(auto, unfolding(crate::specs::Cards::key_form))]
    fn from_json(alloc: Global, value: &Value) -> Result<KeySpec, ItemError> {
        only(value, &["key", "max", "pin", "tries"])?;
        let [key] = field::<[u8; 1]>(alloc, value, "key")?;
        let pin = field(alloc, value, "pin")?;
        let tries: u8 = field(alloc, value, "tries")?;
        let max: u8 = field(alloc, value, "max")?;
        if max >= 1 && max <= 15 && tries <= max {
            Ok(KeySpec {
                key,
                pin,
                tries,
                max,
            })
        } else {
            Err(ItemError::Broken(Why::Form))
        }
    }
}

/// A card of which only the form is known. Contracts see it as a card.
#[derive(Drop)]
pub(crate) struct CardForm {
    files: Sequence<FileForm>,
    aids: AidList,
    keys: KeySpecs,
    channels: u8,
    get_response: bool,
}

impl Model for CardForm {
    ghost use Rattle.script_reader.specs.declared.types.CardSpec.{CardSpec};

    ghost Value = { CardSpec };

    ghost view = { λ c. record { files = c.files; aids = c.aids; keys = c.keys; channels = c.channels; get_response = c.get_response } };
}

impl FromJson for CardForm {
    ghost use Rattle.script_reader.specs.Cards.{card_form};

    ghost form = { card_form };

    #[tactic(auto, unfolding(crate::specs::Cards::card_form))]
    fn from_json(alloc: Global, value: &Value) -> Result<CardForm, ItemError> {
        only(
            value,
            &["aids", "channels", "files", "get_response", "keys"],
        )?;
        let files = field(alloc, value, "files")?;
        let aids = with_default(alloc, value, "aids", Sequence::new(alloc))?;
        let keys = with_default(alloc, value, "keys", Sequence::new(alloc))?;
        let channels = with_default(alloc, value, "channels", 3)?;
        let get_response = with_default(alloc, value, "get_response", false)?;
        Ok(CardForm {
            files,
            aids,
            keys,
            channels,
            get_response,
        })
    }
}

/// An application identifier has 5 to 16 bytes.
fn is_aid(aid: &Bytes) -> bool
    ensures { result ≡ spec.is_aid aid.now }
{
    aid.as_slice().len() >= 5 && aid.as_slice().len() <= 16
}

fn are_aids(aids: &AidList) -> bool
    ensures { result ≡ list_all spec.is_aid aids.now }
{
    aids.as_slice().iter().all(is_aid)
}

impl CardForm {
    fn is_within(&self) -> bool
        ensures { result ≡ spec.is_card_within self.now }
    {
        are_files_within(self.files.as_slice())
            && self.aids.len() <= 8
            && are_aids(&self.aids)
            && self.keys.len() <= 8
            && self.channels <= 3
    }

    /// The card, where the paths of its files are paths.
    fn with_paths(self, alloc: Global) -> Result<CardSpec, ItemError>
        ensures { ReadsAs (spec.card_with_paths self) result }
    {
        let CardForm {
            files,
            aids,
            keys,
            channels,
            get_response,
        } = self;
        let files = with_paths(alloc, files)?;
        check(are_all_apart(files.as_slice()), Why::Path)?;
        Ok(CardSpec {
            files,
            aids,
            keys,
            channels,
            get_response,
        })
    }
}

/// An application whose identifier begins as that of a USIM, ETSI TS 101 220.
fn is_usim(aid: &Bytes) -> bool
    ensures { result ≡ spec.is_usim aid.now }
{
    aid.as_slice()
        .starts_with(&[0xA0, 0x00, 0x00, 0x00, 0x87, 0x10, 0x02])
}

fn is_outside_application(file: &FileSpec) -> bool
    ensures { result ≡ spec.is_outside_application file.now }
{
    !file.path.ids().starts_with(&[0x7FFF])
}

fn has_usim(aids: &AidList) -> bool
    ensures { result ≡ spec.has_usim aids.now }
{
    aids.as_slice().iter().any(is_usim)
}

fn are_outside_application(files: &FileSpecs) -> bool
    ensures { result ≡ spec.are_outside_application files.now }
{
    files.as_slice().iter().all(is_outside_application)
}

fn has_card_shape(card: &CardSpec) -> bool
    ensures { result ≡ spec.has_card_shape card.now }
{
    have_shape(&card.files) && (has_usim(&card.aids) || are_outside_application(&card.files))
}

impl Item for CardSpec {
    ghost use Rattle.script_reader.specs.Cards.{card_item};

    ghost reading = { λ _. card_item };

    ghost room = { 4 };

    #[tactic(auto, unfolding(crate::specs::Cards::card_item))]
    fn item(
        alloc: Global,
        _earlier: Earlier,
        before: &CardSpecs,
        value: &Value,
    ) -> Result<CardSpec, ItemError> {
        let form = CardForm::from_json(alloc, value)?;
        check(before.len() < 4 && form.is_within(), Why::Limit)?;
        let card = form.with_paths(alloc)?;
        check(has_card_shape(&card), Why::Shape)?;
        Ok(card)
    }

    ghost use Rattle.std.proofs.Common.{rules};

    ghost small = { Prim.search rules };
}

/// The paths of a list, where each is one.
fn path_list(alloc: Global, list: &[Ids]) -> Result<PathList, ItemError>
    ensures { ReadsAs (all_of path_reading list.now) result }
{
    let mut out = Sequence::new(alloc);
    for ids in list {
        out.push(path_of(ids.as_slice())?)?;
    }
    Ok(out)
}

/// A change of which only the form is known. Contracts see it as a change.
#[derive(Drop)]
pub(crate) struct ChangeForm {
    qualifier: u8,
    kind: u8,
    list: Sequence<Ids>,
    files: Sequence<FileForm>,
}

impl Model for ChangeForm {
    ghost use Rattle.script_reader.specs.declared.types.ChangeSpec.{ChangeSpec};

    ghost Value = { ChangeSpec };

    ghost view = { λ c. record { qualifier = c.qualifier; kind = c.kind; list = c.list; files = c.files } };
}

impl FromJson for ChangeForm {
    ghost use Rattle.script_reader.specs.Cards.{change_form};

    ghost form = { change_form };

    #[tactic(auto, unfolding(crate::specs::Cards::change_form))]
    fn from_json(alloc: Global, value: &Value) -> Result<ChangeForm, ItemError> {
        only(value, &["files", "list", "qualifier", "type"])?;
        let qualifier = field(alloc, value, "qualifier")?;
        let kind = with_default(alloc, value, "type", 1)?;
        let list = with_default(alloc, value, "list", Sequence::new(alloc))?;
        let files = with_default(alloc, value, "files", Sequence::new(alloc))?;
        Ok(ChangeForm {
            qualifier,
            kind,
            list,
            files,
        })
    }
}

impl ChangeForm {
    /// The change, where its paths are paths.
    fn with_paths(self, alloc: Global) -> Result<ChangeSpec, ItemError>
        ensures { ReadsAs (spec.change_with_paths self) result }
    {
        let ChangeForm {
            qualifier,
            kind,
            list,
            files,
        } = self;
        let list = path_list(alloc, list.as_slice())?;
        let files = with_paths(alloc, files)?;
        check(are_all_apart(files.as_slice()), Why::Path)?;
        Ok(ChangeSpec {
            qualifier,
            kind,
            list,
            files,
        })
    }
}

fn is_listed(list: &PathList, file: &FileSpec) -> bool
    ensures { result ≡ spec.is_listed list.now file.now }
{
    list.as_slice().iter().any(|path| path.equals(&file.path))
}

fn are_listed(list: &PathList, files: &FileSpecs) -> bool
    ensures { result ≡ list_all (spec.is_listed list.now) files.now }
{
    files.as_slice().iter().all(|file| is_listed(list, file))
}

/// A REFRESH by whose qualifier every file counts as changed, or that lists each file.
fn tells_files(change: &ChangeSpec) -> bool
    ensures { result ≡ spec.tells_files change.now }
{
    matches!(change.qualifier, 0 | 4 | 5 | 6)
        || (change.qualifier < 7 && are_listed(&change.list, &change.files))
}

/// What a change changes, its REFRESH tells.
fn is_honest(change: &ChangeSpec) -> bool
    ensures { result ≡ spec.is_honest change.now }
{
    change.files.is_empty() || (change.kind == 1 && tells_files(change))
}

impl Item for ChangeSpec {
    ghost use Rattle.script_reader.specs.Cards.{change_item};

    ghost reading = { λ _. change_item };

    ghost room = { 64 };

    #[tactic(auto, unfolding(crate::specs::Cards::change_item))]
    fn item(
        alloc: Global,
        _earlier: Earlier,
        before: &ChangeSpecs,
        value: &Value,
    ) -> Result<ChangeSpec, ItemError> {
        let form = ChangeForm::from_json(alloc, value)?;
        check(form.list.len() <= 8, Why::Form)?;
        check(
            before.len() < 64 && are_files_within(form.files.as_slice()),
            Why::Limit,
        )?;
        let change = form.with_paths(alloc)?;
        check(have_shape(&change.files), Why::Shape)?;
        check(is_honest(&change), Why::Honest)?;
        Ok(change)
    }

    ghost use Rattle.std.proofs.Common.{rules};

    ghost small = { Prim.search rules };
}
