// What an actor is given, it gives back; and it takes notices only once it watches.
ghost use Rattle.std.specs.Prelude.{◌≡◌, ◌≤◌, length};
ghost use Rattle.script_reader.specs.Pairing as spec;

use crate::Operation;

fn opens(op: &Operation, handle: u8) -> bool
    ensures { result ≡ spec.opens handle op.now }
{
    match op {
        Operation::OpenChannel { handle: other, .. } => *other == handle,
        _ => false,
    }
}

fn closes(op: &Operation, handle: u8) -> bool
    ensures { result ≡ spec.closes handle op.now }
{
    match op {
        Operation::Close { handle: other } => *other == handle,
        _ => false,
    }
}

fn verifies(op: &Operation, key: u8) -> bool
    ensures { result ≡ spec.verifies key op.now }
{
    match op {
        Operation::Verify { key: other, .. } => *other == key,
        _ => false,
    }
}

fn ends_session(op: &Operation, key: u8) -> bool
    ensures { result ≡ spec.ends_session key op.now }
{
    match op {
        Operation::End { key: other } => *other == key,
        _ => false,
    }
}

/// How often the channel is closed before it is opened again.
fn closings(handle: u8, later: &[Operation]) -> usize
    ensures value { result
        ≡ spec.ends_before_next (spec.opens handle) (spec.closes handle) later.now }
    ensures few { result ≤ length later.now }
{
    let [op, later @ ..] = later else {
        return 0;
    };
    if opens(op, handle) {
        return 0;
    }
    usize::from(closes(op, handle)) + closings(handle, later)
}

/// How often the session is ended before its key is verified again.
fn endings(key: u8, later: &[Operation]) -> usize
    ensures value { result
        ≡ spec.ends_before_next (spec.verifies key) (spec.ends_session key) later.now }
    ensures few { result ≤ length later.now }
{
    let [op, later @ ..] = later else {
        return 0;
    };
    if verifies(op, key) {
        return 0;
    }
    usize::from(ends_session(op, key)) + endings(key, later)
}

/// What the operation asks for is given back exactly once before it is asked for again.
fn is_given_back(op: &Operation, later: &[Operation]) -> bool
    ensures { result ≡ spec.is_given_back op.now later.now }
{
    match op {
        Operation::OpenChannel { handle, .. } => closings(*handle, later) == 1,
        Operation::Verify { key, .. } => endings(*key, later) == 1,
        _ => true,
    }
}

fn are_given_back(operations: &[Operation]) -> bool
    ensures { result ≡ spec.are_given_back operations.now }
{
    let [op, later @ ..] = operations else {
        return true;
    };
    is_given_back(op, later) && are_given_back(later)
}

fn is_watch(op: &Operation) -> bool
    ensures { result ≡ spec.is_watch op.now }
{
    matches!(op, Operation::Watch { .. })
}

fn is_notices(op: &Operation) -> bool
    ensures { result ≡ spec.is_notices op.now }
{
    matches!(op, Operation::Notices)
}

/// There is at most one watch, and no notices before it. `watching` says that there was one.
fn is_watching_once(watching: bool, operations: &[Operation]) -> bool
    ensures { result ≡ spec.is_watching_once watching operations.now }
{
    let [op, later @ ..] = operations else {
        return true;
    };
    let watches = is_watch(op);
    !(watches && watching)
        && (watching || !is_notices(op))
        && is_watching_once(watching || watches, later)
}

pub(crate) fn are_paired(operations: &[Operation]) -> bool
    ensures { result ≡ spec.are_paired operations.now }
{
    are_given_back(operations) && is_watching_once(false, operations)
}
