// The watches that a script asks for.
ghost use Rattle.std.specs.Prelude.{◌≡◌, IfOk};
ghost use Rattle.watched_tracker.specs.Asked as spec;

use apdu::Memory;
use script::{Operation, Script};
use std::alloc::Global;
use watchers::{MaskFilter, Watch, WatchList};

fn mask_of(operation: &Operation) -> Option<u8>
    ensures { result ≡ spec.mask_of operation.now }
{
    match operation {
        Operation::Watch { mask } => Some(*mask),
        _ => None,
    }
}

/// The mask of an actor's watch: bit f for family f, and bit 7 for an epoch's end.
pub fn mask_asked(operations: &[Operation]) -> Option<u8>
    ensures { result ≡ spec.mask_asked operations.now }
{
    for operation in operations.iter() {
        if let Some(mask) = mask_of(operation) {
            return Some(mask);
        }
    }
    None
}

/// A watch for each `watch` of a script, in its order, which picks by its mask.
pub fn mask_watches(alloc: Global, script: &Script) -> Result<WatchList<MaskFilter>, Memory>
    ensures { IfOk result (λ watches. watches ≡ spec.watches_asked script.now) }
{
    let mut watches = WatchList::new(alloc);
    for operations in script.actors.as_slice().iter() {
        if let Some(mask) = mask_asked(operations.as_slice()) {
            watches.push(Watch::new(alloc, MaskFilter { mask })?)?;
        }
    }
    Ok(watches)
}
