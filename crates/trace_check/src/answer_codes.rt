// Answers as numbers, so that two are compared.
ghost use Rattle.std.specs.Prelude.{◌≡◌, ◌∷◌, ◌++◌, [], map, IfOk, OnOk};
ghost use Rattle.apdu.specs.Words.{same_bytes};
ghost use Rattle.rules.specs.Rules as rules;

use apdu::{Memory, Response, Sequence};
use report::{Answer, Seen};
use std::alloc::Global;

type Numbers = Sequence<u128>;

/// None is 0, and each number one more than it is.
pub fn optional_number(n: Option<u64>) -> u128
    ensures { result ≡ rules.optional_number n }
{
    match n {
        None => 0,
        Some(n) => n as u128 + 1,
    }
}

fn flag(b: bool) -> u128
    ensures { result ≡ rules.flag b }
{
    if b { 1 } else { 0 }
}

fn numbers(alloc: Global, items: &[u128]) -> Result<Numbers, Memory>
    ensures { IfOk result (λ code. code ≡ items.now) }
{
    Sequence::from_slice(alloc, items)
}

fn add_bytes(bytes: &[u8], code: &mut Numbers) -> Result<(), Memory>
    ensures { OnOk result (code.new ≡ code.old ++ bytes.now) }
{
    for byte in bytes {
        code.push(*byte as u128)?;
    }
    Ok(())
}

fn add_numbers(items: &[u64], code: &mut Numbers) -> Result<(), Memory>
    ensures { OnOk result (code.new ≡ code.old ++ items.now) }
{
    for item in items {
        code.push(*item as u128)?;
    }
    Ok(())
}

fn add_options(items: &[Option<u64>], code: &mut Numbers) -> Result<(), Memory>
    ensures { OnOk result (code.new ≡ code.old ++ map rules.optional_number items.now) }
{
    for item in items {
        code.push(optional_number(*item))?;
    }
    Ok(())
}

fn done_code(
    alloc: Global,
    event: u64,
    publication: Option<u64>,
    left: &[u8],
) -> Result<Numbers, Memory>
    ensures { IfOk result (λ code. code
        ≡ 10 ∷ event ∷ rules.optional_number publication ∷ left.now) }
{
    let mut code = numbers(alloc, &[10, event as u128, optional_number(publication)])?;
    add_bytes(left, &mut code)?;
    Ok(code)
}

fn raw_code(alloc: Global, response: &Response) -> Result<Numbers, Memory>
    ensures { IfOk result (λ code. code ≡ 22 ∷ response.now.sw ∷ response.now.body) }
{
    let mut code = numbers(alloc, &[22, response.sw.0 as u128])?;
    add_bytes(response.body.as_slice(), &mut code)?;
    Ok(code)
}

fn look_code(alloc: Global, seen: &Seen) -> Result<Numbers, Memory>
    ensures { IfOk result (λ code. code
        ≡ 30 ∷ seen.now.count ∷ map rules.optional_number seen.now.shown) }
{
    let mut code = numbers(alloc, &[30, seen.count as u128])?;
    add_options(seen.shown.as_slice(), &mut code)?;
    Ok(code)
}

fn notices_code(alloc: Global, dropped: u64, items: &[u64]) -> Result<Numbers, Memory>
    ensures { IfOk result (λ code. code ≡ 32 ∷ dropped ∷ items.now) }
{
    let mut code = numbers(alloc, &[32, dropped as u128])?;
    add_numbers(items, &mut code)?;
    Ok(code)
}

/// An answer as numbers.
fn answer_code(alloc: Global, answer: &Answer) -> Result<Numbers, Memory>
    ensures { IfOk result (λ code. code ≡ rules.answer_code answer.now) }
{
    match answer {
        Answer::Moved => numbers(alloc, &[0]),
        Answer::SlotFull => numbers(alloc, &[1]),
        Answer::SlotEmpty => numbers(alloc, &[2]),
        Answer::ArmFull => numbers(alloc, &[3]),
        Answer::Absent => numbers(alloc, &[4]),
        Answer::EpochEnded {
            epoch,
            event,
            unsure,
        } => numbers(alloc, &[5, *epoch as u128, *event as u128, flag(*unsure)]),
        Answer::Status { sw, event } => numbers(alloc, &[6, sw.0 as u128, *event as u128]),
        Answer::Loop { event } => numbers(alloc, &[7, *event as u128]),
        Answer::BadFcp { event } => numbers(alloc, &[8, *event as u128]),
        Answer::Loaded { publication } => numbers(alloc, &[9, *publication as u128]),
        Answer::Done {
            event,
            publication,
            left,
        } => done_code(alloc, *event, *publication, left.as_slice()),
        Answer::NeedsPin { key } => numbers(alloc, &[11, *key as u128]),
        Answer::BadFile { width } => numbers(alloc, &[12, *width as u128]),
        Answer::NoRecord { at } => numbers(alloc, &[13, *at as u128]),
        Answer::Full { count } => numbers(alloc, &[14, *count as u128]),
        Answer::NotWritable { found } => numbers(alloc, &[15, *found as u128]),
        Answer::NameTooLong { need, room } => {
            numbers(alloc, &[16, *need as u128, *room as u128])
        }
        Answer::BadDigit { at } => numbers(alloc, &[17, *at as u128]),
        Answer::NumberTooLong { count } => numbers(alloc, &[18, *count as u128]),
        Answer::ExtFull { count } => numbers(alloc, &[19, *count as u128]),
        Answer::Opened { channel } => numbers(alloc, &[20, *channel as u128]),
        Answer::Exhausted { event } => numbers(alloc, &[21, *event as u128]),
        Answer::Raw { response } => raw_code(alloc, response),
        Answer::RawRefused { ins } => numbers(alloc, &[23, *ins as u128]),
        Answer::NotHeldRef { handle } => numbers(alloc, &[24, *handle as u128]),
        Answer::NotHeldKey { key } => numbers(alloc, &[25, *key as u128]),
        Answer::Closed => numbers(alloc, &[26]),
        Answer::Verified => numbers(alloc, &[27]),
        Answer::Ended => numbers(alloc, &[28]),
        Answer::Polled => numbers(alloc, &[29]),
        Answer::Look { seen } => look_code(alloc, seen),
        Answer::Watching => numbers(alloc, &[31]),
        Answer::Notices { dropped, numbers } => {
            notices_code(alloc, *dropped, numbers.as_slice())
        }
    }
}

fn same_numbers(a: &[u128], b: &[u128]) -> bool
    ensures { result ≡ same_bytes a.now b.now }
{
    a == b
}

pub fn same_answer(alloc: Global, a: &Answer, b: &Answer) -> Result<bool, Memory>
    ensures { IfOk result (λ same. same ≡ rules.same_answer a.now b.now) }
{
    let first = answer_code(alloc, a)?;
    let second = answer_code(alloc, b)?;
    Ok(same_numbers(first.as_slice(), second.as_slice()))
}
