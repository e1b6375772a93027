// What is done to each item of a list.
ghost use Rattle.std.specs.Prelude.{◌≡◌, true, map};
ghost use Rattle.std.specs.List.{list_all};

use apdu::Sequence;
use std::alloc::Global;
use std::mem;

/// A change of one item.
pub trait Change<T> {
    ghost use Rattle.std.specs.Prelude.{Bool};

    /// The item behind it.
    ghost after: { Self → T → T };

    /// The items that it may be made of.
    ghost fits: { Self → T → Bool };

    fn apply(&self, item: &mut T)
        requires { fits self.now item.old ≡ true }
        ensures { item.new ≡ after self.now item.old };
}

/// Changes each item.
pub fn change_all<T, C: Change<T>>(items: &mut [T], change: &C)
    requires { list_all (C.fits change.now) items.old ≡ true }
    ensures { items.new ≡ map (C.after change.now) items.old }
{
    for item in items.iter_mut() {
        change.apply(item);
    }
}

/// The same of a list, which takes no memory.
pub fn change_each<T: Drop, C: Change<T>>(alloc: Global, list: &mut Sequence<T>, change: &C)
    requires { list_all (C.fits change.now) list.old ≡ true }
    ensures { list.new ≡ map (C.after change.now) list.old }
{
    let mut items = mem::replace(list, Sequence::new(alloc)).into_vec();
    change_all(items.as_mut_slice(), change);
    *list = Sequence::from_vec(items);
}
