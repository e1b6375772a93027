// What the words of a call ask for.
ghost use Rattle.std.specs.Prelude.{◌≡◌, IfOk, IfSome, codes};
ghost use Rattle.clap.specs.Words.{found_of, rows_of, subcommand_rows_of};
ghost use Rattle.subcommands.specs.Subcommands.{HasSize, subcommand_of};
ghost use Rattle.subcommands.specs.CommandLine.{number_in, subcommand_in};

use crate::command::command_line;
use crate::spelling::are_spelt;
use apdu::Memory;
use clap::ArgMatches;
use clap::error::ErrorKind;
use std::alloc::Global;

/// What a call is to do.
#[derive(Clone, Copy, Debug, PartialEq, Eq)]
pub enum Subcommand {
    /// Replays the script that is read.
    Replay,
    /// Runs the script that is read, with a thread for each actor.
    Run,
    /// Checks the report that is read.
    Check,
    /// Writes the script of a seed and a size.
    Generate { seed: u32, size: u16 },
    /// Replays the script of a seed and a size, and counts what its report has.
    Bulk { seed: u32, size: u16 },
}

fn seed_in(matches: &ArgMatches<'_>) -> Option<u32>
    ensures { result ≡ number_in 32 (codes "SEED") (rows_of (found_of matches.now)) }
{
    matches.get_one::<u32>("SEED")
}

fn size_in(matches: &ArgMatches<'_>) -> Option<u16>
    ensures { result ≡ number_in 16 (codes "SIZE") (rows_of (found_of matches.now)) }
{
    matches.get_one::<u16>("SIZE")
}

/// The subcommand of what clap found.
fn subcommand_in(matches: &ArgMatches<'_>) -> Option<Subcommand>
    ensures { result ≡ subcommand_in (subcommand_rows_of matches.now) }
{
    let (name, values) = matches.subcommand()?;
    match name {
        "replay" => Some(Subcommand::Replay),
        "run" => Some(Subcommand::Run),
        "check" => Some(Subcommand::Check),
        "gen" => {
            let seed = seed_in(values)?;
            let size = size_in(values)?;
            Some(Subcommand::Generate { seed, size })
        }
        "bulk" => {
            let seed = seed_in(values)?;
            let size = size_in(values)?;
            Some(Subcommand::Bulk { seed, size })
        }
        _ => None,
    }
}

/// What the words ask for, unless they are no command.
pub fn read_words(alloc: Global, words: &[String]) -> Result<Option<Subcommand>, Memory>
    ensures value { IfOk result (λ c. c ≡ subcommand_of words.now) }
    ensures sizes { IfOk result (λ c. IfSome c HasSize) }
{
    if !are_spelt(words) {
        return Ok(None);
    }
    match command_line(alloc)?.try_get_matches_from(words) {
        Ok(matches) => Ok(subcommand_in(&matches)),
        Err(error) => match error.kind() {
            ErrorKind::OutOfMemory => Err(Memory),
            _ => Ok(None),
        },
    }
}
