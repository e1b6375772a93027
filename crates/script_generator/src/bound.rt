// How many events a run of a script may have.
ghost use Rattle.std.specs.Prelude.{◌≡◌, ◌<◌, ◌≤◌, ◌+◌, ◌^◌, true, length, count_by};
ghost use Rattle.script_reader.specs.Rules.{keeps_rules};
ghost use Rattle.script_reader.specs.Operations.{operation_count};
ghost use Rattle.script_generator.specs.Working as spec;

use crate::reading::whole_reading;
use script_reader::{Operation, Operations, Script};

fn is_edit(operation: &Operation) -> bool
    ensures { result ≡ spec.is_edit operation.now }
{
    match operation {
        Operation::Set { .. } | Operation::Clear { .. } => true,
        _ => false,
    }
}

/// Whether it may move what others read.
fn is_move(operation: &Operation) -> bool
    ensures { result ≡ spec.is_move operation.now }
{
    match operation {
        Operation::Insert { .. } | Operation::Out | Operation::Arm { .. } | Operation::Raw { .. } =>
            true,
        _ => false,
    }
}

fn edits_in(operations: &[Operation]) -> usize
    ensures { result ≡ count_by spec.is_edit operations.now }
{
    operations
        .iter()
        .filter(|operation| is_edit(operation))
        .count()
}

fn moves_in(operations: &[Operation]) -> usize
    ensures { result ≡ count_by spec.is_move operations.now }
{
    operations
        .iter()
        .filter(|operation| is_move(operation))
        .count()
}

fn edits(actors: &[Operations]) -> u64
    requires { spec.count_all spec.is_edit actors.now < 2 ^ 64 }
    ensures { result ≡ spec.count_all spec.is_edit actors.now }
{
    let [operations, behind @ ..] = actors else {
        return 0;
    };
    edits_in(operations.as_slice()) as u64 + edits(behind)
}

fn moves(actors: &[Operations]) -> u64
    requires { spec.count_all spec.is_move actors.now < 2 ^ 64 }
    ensures { result ≡ spec.count_all spec.is_move actors.now }
{
    let [operations, behind @ ..] = actors else {
        return 0;
    };
    moves_in(operations.as_slice()) as u64 + moves(behind)
}

fn operations_of(actors: &[Operations]) -> u64
    requires { operation_count actors.now < 2 ^ 64 }
    ensures { result ≡ operation_count actors.now }
{
    let [operations, behind @ ..] = actors else {
        return 0;
    };
    operations.len() as u64 + operations_of(behind)
}

/// How often what is read may become stale, for so many moves and edits.
#[tactic(auto, using(crate::proofs::Bounds::disturbances_few))]
fn disturbances_by(moves: u64, edits: u64) -> u64
    requires { moves + edits ≤ 1100 }
    ensures { result ≡ spec.disturbances moves edits }
{
    (moves + 1) * (3 * edits + 1)
}

fn disturbances(script: &Script) -> u64
    requires { keeps_rules script.now ≡ true }
    ensures { result ≡ spec.disturbances_of script.now }
{
    let actors = script.actors.as_slice();
    disturbances_by(moves(actors) + script.faults.len() as u64, edits(actors))
}

#[tactic(auto, using(crate::proofs::Bounds::front_fits, crate::proofs::Bounds::work_fits))]
fn work_by(reading: u64, operations: u64, disturbed: u64) -> u64
    requires reading { reading ≤ 2222325 }
    requires operations { operations ≤ 1000 }
    requires disturbed { disturbed ≤ 909701 }
    ensures { result ≡ spec.work_of reading operations disturbed }
{
    (8 * reading + 32) * (operations + disturbed + 2) * (disturbed + 1)
}

/// A bound for the events of a run, by the sizes of the script. It takes no memory.
pub fn work(script: &Script) -> u64
    requires { keeps_rules script.now ≡ true }
    ensures { result ≡ spec.work script.now }
{
    let reading = whole_reading(script);
    let operations = operations_of(script.actors.as_slice());
    work_by(reading, operations, disturbances(script))
}
