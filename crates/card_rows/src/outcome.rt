// What a command comes to.
ghost use Rattle.std.specs.Prelude.{◌≡◌, None};

use apdu::Response;
use card_model::Change;

/// What a command comes to.
#[derive(Drop)]
pub struct Outcome<'a> {
    pub response: Response,
    /// The change that a FETCH gives the card. Its files are not on the card yet: the caller writes them.
    pub fetched: Option<&'a Change>,
}

impl<'a> Outcome<'a> {
    /// A response alone.
    pub fn of(response: Response) -> Outcome<'a>
        ensures response { result.response ≡ response }
        ensures fetched { result.fetched ≡ None }
    {
        Outcome {
            response,
            fetched: None,
        }
    }
}
