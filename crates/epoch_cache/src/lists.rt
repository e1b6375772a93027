// What is done to each item of a list.
ghost use Rattle.std.specs.Prelude.{◌≡◌, map};

use apdu::Sequence;
use std::alloc::Global;
use std::mem;

/// A change of one item.
pub trait Change<T> {
    /// The item behind it.
    ghost after: { Self → T → T };

    fn apply(&self, item: &mut T)
        ensures { item.new ≡ after self.now item.old };
}

fn change_items<T, C: Change<T>>(items: &mut [T], change: &C)
    ensures { items.new ≡ map (C.after change.now) items.old }
{
    for item in items.iter_mut() {
        change.apply(item);
    }
}

fn change_vec<T, C: Change<T>>(items: &mut Vec<T>, change: &C)
    ensures { items.new.items ≡ map (C.after change.now) items.old.items }
{
    change_items(items.as_mut_slice(), change);
}

/// Changes each item, and takes no memory.
pub fn change_each<T: Drop, C: Change<T>>(alloc: Global, list: &mut Sequence<T>, change: &C)
    ensures { list.new ≡ map (C.after change.now) list.old }
{
    let mut items = mem::replace(list, Sequence::new(alloc)).into_vec();
    change_vec(&mut items, change);
    *list = Sequence::from_vec(items);
}
