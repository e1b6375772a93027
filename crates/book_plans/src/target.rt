// The row that an edit is about.
ghost use Rattle.std.specs.Prelude.{◌≡◌, ◌≤◌, ◌<◌, IfSome, length, position};
ghost use Rattle.std.specs.Option.{option_copied};
ghost use Rattle.families.specs.Plans as plans;

use adn::{BookRow, Edit, PlanError};

pub fn is_free(row: &BookRow) -> bool
    ensures { result ≡ plans.is_free row.now }
{
    matches!(row, BookRow::Free)
}

/// The index of the first free row.
fn first_free(book: &[BookRow]) -> Option<usize>
    ensures place { result ≡ position plans.is_free book.now }
    ensures within { IfSome result (λ place. place < length book.now) }
{
    book.iter().position(|row| is_free(row))
}

/// The number of the first free row.
fn free_target(book: &[BookRow]) -> Option<u8>
    requires { length book.now ≤ 255 }
    ensures { result ≡ plans.from_one (position plans.is_free book.now) }
{
    match first_free(book) {
        Some(index) => Some(index as u8 + 1),
        None => None,
    }
}

/// The number that the edit states, or that of the first free row.
pub fn target_of(book: &[BookRow], edit: &Edit) -> Option<u8>
    requires { length book.now ≤ 255 }
    ensures { result ≡ plans.target_of book.now edit.now }
{
    match edit {
        Edit::Set { at: Some(at), .. } => Some(*at),
        Edit::Set { at: None, .. } => free_target(book),
        Edit::Clear { at } => Some(*at),
    }
}

/// The number of the row, or why there is none.
pub fn row_from_target(count: u8, target: Option<u8>) -> Result<u8, PlanError>
    ensures { result ≡ plans.row_from_target count target }
{
    match target {
        None => Err(PlanError::Full { count }),
        Some(at) if (1..=count).contains(&at) => Ok(at),
        Some(at) => Err(PlanError::NoRecord(at)),
    }
}
