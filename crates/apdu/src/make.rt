// Lists whose items are made from those of another list.
ghost use Rattle.std.specs.Prelude.{◌≡◌, ◌++◌, true, map, IfOk, OnOk, Bool};
ghost use Rattle.std.specs.List.{list_all};

use crate::{Bytes, Memory, Path, Sequence};
use std::alloc::Global;

/// What another value is made from, which may ask for memory. For what holds memory itself that is a copy.
pub trait Make {
    type Made: Drop;

    /// Whether it keeps what the making asks of it.
    ghost can_make: { Self → Bool };

    /// What is made from it.
    ghost made: { Self → Self.Made };

    fn make(&self, alloc: Global) -> Result<Self::Made, Memory>
        requires { can_make self.now ≡ true }
        ensures { IfOk result (λ value. value ≡ made self.now) };
}

impl Make for Bytes {
    type Made = Bytes;

    ghost can_make = { λ _. true };

    ghost made = { λ bytes. bytes };

    fn make(&self, alloc: Global) -> Result<Bytes, Memory> {
        Bytes::from_slice(alloc, self.as_slice())
    }
}

impl Make for Path {
    type Made = Path;

    ghost can_make = { λ _. true };

    ghost made = { λ path. path };

    fn make(&self, _alloc: Global) -> Result<Path, Memory> {
        Ok(self.copy())
    }
}

impl<T: Drop> Sequence<T> {
    /// Puts at the end what is made from each of these.
    pub fn extend_made<S: Make<Made = T>>(
        &mut self,
        alloc: Global,
        from: &[S],
    ) -> Result<(), Memory>
        requires { list_all S.can_make from.now ≡ true }
        ensures { OnOk result (self.new ≡ self.old ++ map S.made from.now) }
    {
        let mut rest = from;
        while let [first, others @ ..] = rest {
            self.push(first.make(alloc)?)?;
            rest = others;
        }
        Ok(())
    }

    /// The list of what is made from each of these.
    pub fn made_from<S: Make<Made = T>>(alloc: Global, from: &[S]) -> Result<Sequence<T>, Memory>
        requires { list_all S.can_make from.now ≡ true }
        ensures { IfOk result (λ list. list ≡ map S.made from.now) }
    {
        let mut list = Sequence::new(alloc);
        list.extend_made(alloc, from)?;
        Ok(list)
    }
}
