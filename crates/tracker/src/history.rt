// The events of a run and its epochs.
ghost use Rattle.std.specs.Prelude.{◌≡◌, ◌+◌, ◌<◌, ◌^◌};
ghost use Rattle.rules.specs.History as rules;

use crate::lines::{
    begins_epoch, counted, is_call, is_epoch_border, is_event, is_failed_exchange, stops_epoch,
};
use epoch_cache::{Past, announced_after};
use report::Line;

fn announced_behind(line: &Line, before: Option<u8>) -> Option<u8>
    ensures { result ≡ rules.announced_behind line.now before }
{
    match line {
        Line::Exchange {
            command,
            response,
            ..
        } => announced_after(command, response, before),
        other => if is_epoch_border(other) { None } else { before },
    }
}

pub fn history_after(line: &Line, history: Past) -> Past
    requires events { history.events + 1 < 2 ^ 64 }
    requires calls { history.calls + 1 < 2 ^ 64 }
    requires epoch { history.epoch + 1 < 2 ^ 64 }
    ensures { result ≡ rules.history_after line.now history }
{
    Past {
        events: counted(is_event(line), history.events),
        calls: counted(is_call(line), history.calls),
        epoch: counted(begins_epoch(line), history.epoch),
        living: begins_epoch(line) || !stops_epoch(line) && history.living,
        owes_reset: is_failed_exchange(line) || !is_epoch_border(line) && history.owes_reset,
        announced: announced_behind(line, history.announced),
    }
}

/// Whether the line ends the epoch that lived before it.
pub fn ends_epoch(line: &Line, history: Past) -> bool
    ensures { result ≡ rules.ends_epoch line.now history }
{
    is_epoch_border(line) && history.living
}

/// Whether the epoch of this number lives.
pub fn is_living(history: Past, epoch: u64) -> bool
    ensures { result ≡ rules.is_living history epoch }
{
    history.living && history.epoch == epoch
}

/// The same of an epoch that there may be.
pub fn lives_in(history: Past, epoch: Option<u64>) -> bool
    ensures { result ≡ rules.lives_in history epoch }
{
    match epoch {
        None => false,
        Some(epoch) => is_living(history, epoch),
    }
}
