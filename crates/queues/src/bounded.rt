// A queue whose entries lie in a vector, in an order of its own: its layout.
//
// It asks for memory only when it is made, for as many entries as it can hold. `clear` lets the entries go
// one by one, and `count` and `capacity` cost the same whatever the queue holds. What `put` and `take` cost
// is the layout's matter.
ghost use Rattle.std.specs.Prelude.{◌≡◌, ◌+◌, ◌-◌, ◌<◌, ◌≤◌, List, [], length, IfOk, vec_len, vec_capacity};
ghost use Rattle.queue.specs.declared.entry.Entry.{Entry};
ghost use Rattle.queue.specs.Bag.{insert, Rising, Takes};
ghost use Rattle.std.proofs.Common.{arith};

use queue::entry::{Entry, Full};
use queue::interface::Queue;
use std::alloc::{AllocError, Global};
use std::marker::PhantomData;

// How entries lie in a vector.
pub(crate) trait Layout {
    // The lists that are laid out so.
    ghost laid: { List Entry → Type 0 };

    // That a list is laid out so has one proof at most, so that a type can keep it.
    ghost fact: { (xs : List Entry) → IsProp (laid xs) };

    // The bag of a list.
    ghost bag: { List Entry → List Entry };

    // Adds an entry to a vector that has room for it.
    fn push(items: &mut Vec<Entry>, e: Entry)
        requires laid { laid items.old.items }
        requires reserved { vec_len items.old < vec_capacity items.old }
        ensures bag { bag items.new.items ≡ insert e (bag items.old.items) }
        ensures laid { laid items.new.items }
        ensures len { vec_len items.new ≡ vec_len items.old + 1 }
        ensures capacity { vec_capacity items.new ≡ vec_capacity items.old };

    // Takes the least entry out, if there is one.
    fn pop(items: &mut Vec<Entry>) -> Option<Entry>
        requires { laid items.old.items }
        ensures takes { Takes (bag items.old.items) (bag items.new.items) result }
        ensures laid { laid items.new.items }
        ensures len { vec_len items.new ≡ vec_len items.old - 1 }
        ensures capacity { vec_capacity items.new ≡ vec_capacity items.old };

    // What every layout proves: the empty list is laid out so; the bag of one that is rises; a bag is as long as
    // its list.
    ghost none: { laid [] };

    ghost rises: { (xs : List Entry) → laid xs → Rising (bag xs) };

    ghost counts: { (xs : List Entry) → length (bag xs) ≡ length xs };
}

#[derive(Drop)]
pub struct Bounded<L: Layout> {
    items: Vec<Entry>,
    most: usize,
    layout: PhantomData<L>,
    ghost laid: { L.laid items.items } by { L.fact items.items },
    ghost within: { vec_len items ≤ most },
    ghost reserved: { most ≤ vec_capacity items },
}

impl<L: Layout> Bounded<L> {
    // An empty queue for `most` entries, unless memory is short.
    pub fn new(heap: Global, most: usize) -> Result<Bounded<L>, AllocError>
        ensures { IfOk result (λ q. (L.bag q.items.items ≡ []) × (q.most ≡ most)) }
    {
        let items = Vec::with_capacity(heap, most)?;
        Ok(Bounded {
            items,
            most,
            layout: PhantomData,
        })
    }
}

impl<L: Layout> Queue for Bounded<L> {
    ghost bag = { λ q. L.bag q.items.items };

    ghost room = { λ q. q.most };

    ghost rises = { λ q. L.rises q.items.items q.laid };

    ghost fits = { λ q. let n = L.counts q.items.items in Prim.omega arith };

    fn clear(&mut self) {
        self.items.clear();
    }

    fn put(&mut self, e: Entry) -> Result<(), Full> {
        if self.items.len() == self.most {
            return Err(Full);
        }
        L::push(&mut self.items, e);
        Ok(())
    }

    fn take(&mut self) -> Option<Entry> {
        L::pop(&mut self.items)
    }

    fn count(&self) -> usize {
        self.items.len()
    }

    fn capacity(&self) -> usize {
        self.most
    }
}
