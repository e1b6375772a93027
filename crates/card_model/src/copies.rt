// Copies of what a card holds.
ghost use Rattle.std.specs.Prelude.{true};

use crate::FileState;
use apdu::{Bytes, Make, Memory};
use std::alloc::Global;

impl Make for FileState {
    type Made = FileState;

    ghost can_make = { λ _. true };

    ghost made = { λ file. file };

    fn make(&self, alloc: Global) -> Result<FileState, Memory> {
        let fcp = match &self.fcp {
            Some(bytes) => Some(Bytes::from_slice(alloc, bytes.as_slice())?),
            None => None,
        };
        Ok(FileState {
            path: self.path.copy(),
            rows: self.rows.copy()?,
            active: self.active,
            arr: self.arr,
            endless: self.endless,
            fcp,
        })
    }
}
