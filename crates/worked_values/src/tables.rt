// The tables of worked values: a line has what is given, a colon, and what is found of it.

use crate::books::{BOOKS, book_of};
use crate::fields::{FIELDS, field_of};
use crate::objects::{OBJECTS, objects_of};
use crate::parameters::{PARAMETERS, RULES, parameters_of, rule_of};
use crate::{commands, digits, names};
use std::alloc::Global;
use std::test::Fail;

#[derive(Clone, Copy)]
enum Subject {
    Book,
    Command,
    TerminalResponse,
    WrittenDigits,
    Digits,
    Field,
    NameBothWays,
    Name,
    NameRefusal,
    Objects,
    Parameters,
    Rule,
}

fn found_of(alloc: Global, subject: Subject, given: &str) -> Result<String, Fail> {
    match subject {
        Subject::Book => book_of(alloc, given),
        Subject::Command => commands::command_of(alloc, given),
        Subject::TerminalResponse => commands::terminal_response_of(alloc, given),
        Subject::WrittenDigits => digits::written_of(alloc, given),
        Subject::Digits => digits::digits_of(alloc, given),
        Subject::Field => field_of(alloc, given),
        Subject::NameBothWays => names::both_ways(alloc, given),
        Subject::Name => names::name_of(alloc, given),
        Subject::NameRefusal => names::refusal_of(alloc, given),
        Subject::Objects => objects_of(alloc, given),
        Subject::Parameters => parameters_of(alloc, given),
        Subject::Rule => rule_of(alloc, given),
    }
}

#[test]
fn worked_values_are_found(rt: HostRuntime) -> Result<(), Fail> {
    let tables = [
        (Subject::Book, BOOKS),
        (Subject::Command, commands::READ),
        (Subject::Command, commands::REFUSED),
        (Subject::TerminalResponse, commands::TERMINAL_RESPONSES),
        (Subject::WrittenDigits, digits::WRITTEN),
        (Subject::Digits, digits::READ),
        (Subject::Field, FIELDS),
        (Subject::NameBothWays, names::BOTH_WAYS),
        (Subject::Name, names::READ),
        (Subject::NameRefusal, names::REFUSED),
        (Subject::Objects, OBJECTS),
        (Subject::Parameters, PARAMETERS),
        (Subject::Rule, RULES),
    ];
    for (subject, table) in tables {
        for line in table.lines() {
            let (given, wanted) = line.split_once(':').ok_or("a colon")?;
            let found = found_of(rt.alloc(), subject, given)?;
            assert_eq!(rt; found.as_str(), wanted, "at {line}");
        }
    }
    Ok(())
}
