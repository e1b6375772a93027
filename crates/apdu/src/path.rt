// A path of one to three file ids, ETSI TS 102 221 clause 8.4.
ghost use Rattle.std.specs.Prelude.{◌≡◌, ◌≤◌, ◌<◌, length};
ghost use Rattle.apdu.specs.Words.{path_of, same_bytes};

use arrayvec::ArrayVec;
use std::default::MadeWith;
use std::marker::Model;

/// One to three file ids below the master file, which itself is not named. Contracts see the list of the ids.
#[derive(Drop)]
pub struct Path {
    ids: ArrayVec<u16, 3>,
}

impl Model for Path {
    ghost use Rattle.std.specs.Prelude.{List, ℕ, ◌<◌, ◌≤◌, length};

    ghost Value = { List ℕ };

    ghost view = { λ p. p.ids.items };

    ghost invariant = { λ p. (0 < length p.ids.items) × (length p.ids.items ≤ 3) };
}

impl Path {
    /// The path of these ids, unless there are none or more than three.
    pub fn from_ids(ids: &[u16]) -> Option<Path>
        ensures { result ≡ path_of ids.now }
    {
        if ids.is_empty() {
            return None;
        }
        let mut list = ArrayVec::new();
        list.try_extend_from_slice(ids).ok()?;
        Some(Path { ids: list })
    }

    pub fn ids(&self) -> &[u16]
        ensures ids { result.now ≡ self.now }
        ensures some { 0 < length self.now }
        ensures few { length self.now ≤ 3 }
    {
        self.ids.as_slice()
    }

    /// A copy of the path.
    pub fn copy(&self) -> Path
        ensures { result ≡ self.now }
    {
        let mut ids = ArrayVec::new();
        let _ = ids.try_extend_from_slice(self.ids.as_slice());
        Path { ids }
    }

    /// Whether the two have the same ids.
    pub fn equals(&self, other: &Path) -> bool
        ensures { result ≡ same_bytes self.now other.now }
    {
        self.ids.as_slice() == other.ids.as_slice()
    }
}

/// What the unused places of an `ArrayVec` of paths hold.
impl MadeWith<()> for Path {
    fn made_with(_maker: ()) -> Path {
        let mut ids = ArrayVec::new();
        ids.push(0);
        Path { ids }
    }
}
