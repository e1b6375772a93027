// The boards that a look may show: behind each publication so far, the number of the one that is shown of each family.
ghost use Rattle.std.specs.Prelude.{◌≡◌, ◌==◌, length, OnOk};
ghost use Rattle.rules.specs.After.{is_publication as is_publication_line};
ghost use Rattle.rules.specs.Kept.{job_of};
ghost use Rattle.rules.specs.Rules as rules;
ghost use Rattle.rules.specs.Standing.{board_of as board_shown};
ghost use Rattle.trace_check.specs.Judging as spec;

use crate::answer_codes::optional_number;
use apdu::{Memory, Sequence};
use report::{Line, Mode, Seen};
use rules::{Kept, Standing};

/// By family, the publication that is shown.
pub type Board = [Option<u64>; 3];

/// The board behind each publication, the first one first.
pub type Boards = Sequence<Board>;

fn board_of(standings: &[Standing; 3]) -> Board
    ensures { result ≡ board_shown standings.now }
{
    let [records, phonebook, fixed] = standings;
    [records.shown, phonebook.shown, fixed.shown]
}

fn is_publication(line: &Line) -> bool
    ensures { result ≡ is_publication_line line.now }
{
    matches!(line, Line::Published { .. } | Line::EpochEnd { .. })
}

/// Takes the board behind a publication; `kept` is what is kept behind the line.
pub fn keep_board(line: &Line, kept: &Kept, boards: &mut Boards) -> Result<(), Memory>
    ensures { OnOk result (boards.new ≡ spec.boards_behind line.now kept.now boards.old) }
{
    if is_publication(line) {
        return boards.push(board_of(&kept.standings));
    }
    Ok(())
}

/// How many publications an actor had seen.
fn seen_of(actor: u8, kept: &Kept) -> u64
    ensures { result ≡ (job_of actor kept.now.jobs).seen }
{
    match kept.jobs.get(actor as usize) {
        None => 0,
        Some(job) => job.seen,
    }
}

/// A look shows the board as it was behind at least the publications before the actor's last answer.
fn is_count_right(mode: Mode, kept: &Kept, actor: u8, count: u64) -> bool
    ensures { result ≡ rules.is_count_right mode kept.now actor count }
{
    match mode {
        Mode::Replay => count == kept.publications,
        Mode::Run => seen_of(actor, kept) <= count && count <= kept.publications,
    }
}

fn same_number(a: Option<u64>, b: Option<u64>) -> bool
    ensures { result ≡ (rules.optional_number a == rules.optional_number b) }
{
    optional_number(a) == optional_number(b)
}

fn same_board(a: &[Option<u64>], b: &Board) -> bool
    ensures { result ≡ rules.same_board a.now b.now }
{
    match a {
        [x, y, z] => {
            let [u, v, w] = b;
            same_number(*x, *u) && same_number(*y, *v) && same_number(*z, *w)
        }
        _ => false,
    }
}

/// The board behind so many publications.
fn board_after(count: u64, boards: &[Board]) -> Board
    ensures { result ≡ spec.board_of_first count boards.now }
{
    if count == 0 {
        return [None, None, None];
    }
    match boards.get(count as usize - 1) {
        None => [None, None, None],
        Some(board) => *board,
    }
}

/// Whether a look shows the board that it may.
pub fn is_look_right(mode: Mode, kept: &Kept, boards: &[Board], actor: u8, seen: &Seen) -> bool
    requires { length boards.now ≡ kept.now.publications }
    ensures { result ≡ spec.is_look_right mode kept.now boards.now actor seen.now }
{
    is_count_right(mode, kept, actor, seen.count)
        && same_board(seen.shown.as_slice(), &board_after(seen.count, boards))
}
