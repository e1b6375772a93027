// How each family stands.
ghost use Rattle.std.specs.Prelude.{◌≡◌, ◌==◌, map};
ghost use Rattle.std.specs.Option.{option_copied};
ghost use Rattle.apdu.specs.Words.{has_value};
ghost use Rattle.rules.specs.After.{family_begun as begun_family};
ghost use Rattle.rules.specs.Standing as rules;

use crate::lists::{Change, change_all};
use editor::{family_paths, has_path};
use epoch_cache::Touch;
use loader::RefusedReading;
use planner::operation_at;
use report::Line;
use rules::Standing;
use script::{Operation, Script};

/// The family of a load, set or clear.
pub fn family_wanted(operation: &Operation) -> Option<u8>
    ensures { result ≡ rules.family_wanted operation.now }
{
    match operation {
        Operation::Load { family } => Some(*family),
        Operation::Set { family, .. } => Some(*family),
        Operation::Clear { family, .. } => Some(*family),
        _ => None,
    }
}

/// The family of a load, set or clear that the line begins.
pub fn family_begun(script: &Script, line: &Line) -> Option<u8>
    ensures { result ≡ begun_family script.now line.now }
{
    match line {
        Line::Begin { actor, op } => match operation_at(script, *actor, *op) {
            None => None,
            Some(operation) => family_wanted(operation),
        },
        _ => None,
    }
}

fn settled_by(family: u8, line: &Line, refused: Option<u64>) -> Option<u64>
    ensures { result ≡ rules.settled_by family line.now refused }
{
    match line {
        Line::Published {
            family: published,
            point,
            ..
        } => if *published == family {
            Some(*point)
        } else {
            refused
        },
        _ => refused,
    }
}

fn unless_settled(settled: Option<u64>, stale: Option<u64>) -> Option<u64>
    ensures { result ≡ rules.unless_settled settled stale }
{
    match (stale, settled) {
        (None, _) => None,
        (Some(since), None) => Some(since),
        (Some(since), Some(at)) => if since < at { None } else { Some(since) },
    }
}

fn latest(a: Option<u64>, b: Option<u64>) -> Option<u64>
    ensures { result ≡ rules.latest a b }
{
    match (a, b) {
        (None, b) => b,
        (Some(a), None) => Some(a),
        (Some(a), Some(b)) => if a < b { Some(b) } else { Some(a) },
    }
}

fn shown_behind(family: u8, line: &Line, before: Option<u64>) -> Option<u64>
    ensures { result ≡ rules.shown_behind family line.now before }
{
    match line {
        Line::Published {
            number,
            family: published,
            ..
        } => if *published == family {
            Some(*number)
        } else {
            before
        },
        Line::EpochEnd { .. } => None,
        _ => before,
    }
}

fn refused_in(family: u8, refused: Option<&RefusedReading>) -> Option<u64>
    ensures { result ≡ rules.refused_in family (option_copied refused.entry) }
{
    match refused {
        None => None,
        Some(refused) => if has_path(family, &refused.path) {
            Some(refused.first_event)
        } else {
            None
        },
    }
}

fn is_family(begun: Option<u8>, family: u8) -> bool
    ensures { result ≡ has_value (λ f. f == family) begun }
{
    match begun {
        None => false,
        Some(begun) => begun == family,
    }
}

/// What a line says of the families.
#[derive(Drop)]
pub struct Look<'a> {
    pub line: &'a Line,
    /// The number of the event that the line is.
    pub event: u64,
    pub touch: &'a Touch,
    pub refused: Option<&'a RefusedReading>,
    /// The family of a load, set or clear that the line begins.
    pub begun: Option<u8>,
}

impl Change<Standing> for Look<'_> {
    ghost use Rattle.std.specs.Prelude.{true};
    ghost use Rattle.std.specs.Option.{option_copied};
    ghost use Rattle.rules.specs.Standing.{standing_after};

    ghost after = { λ l. standing_after l.line.now l.event l.touch.now (option_copied l.refused) l.begun };

    ghost fits = { λ l standing. true };

    fn apply(&self, standing: &mut Standing) {
        let family = standing.family;
        let renews = standing.wanted && self.touch.renews_one(family_paths(family).as_slice());
        let refused = refused_in(family, self.refused);
        *standing = Standing {
            family,
            wanted: standing.wanted || is_family(self.begun, family),
            stale: if renews {
                Some(self.event)
            } else {
                unless_settled(settled_by(family, self.line, refused), standing.stale)
            },
            renewed: if renews { self.event } else { standing.renewed },
            refused: latest(refused, standing.refused),
            shown: shown_behind(family, self.line, standing.shown),
        };
    }
}

#[tactic(auto, using(crate::proofs::EachItem::all_pass))]
pub fn standings_behind(look: &Look, standings: &mut [Standing])
    ensures { standings.new ≡ map (rules.standing_after look.now.line.now look.now.event
        look.now.touch.now (option_copied look.now.refused) look.now.begun) standings.old }
{
    change_all(standings, look);
}
