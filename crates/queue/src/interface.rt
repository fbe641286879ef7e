// What a queue is: a bag of entries and a capacity.
//
// A bag over a total order is its entries in rising order, so what a queue holds is a list that rises:
// to put an entry is to insert it in its place, and to take one is to split off the first. What each call
// answers is settled by the bag and the capacity, so a search that asks for no more than this trait runs
// over every queue.
//
// Nothing is asked of the caller. What a call costs is the queue's own matter.
ghost use Rattle.std.specs.Prelude.{◌≡◌, ℕ, ◌≤◌, List, [], length};
ghost use Rattle.queue.specs.declared.entry.Entry.{Entry};
ghost use Rattle.queue.specs.Bag.{Rising, Puts, Takes};

use crate::entry::{Entry, Full};

pub trait Queue {
    // The entries that the queue holds, in rising order.
    ghost bag: { Self → List Entry };

    // How many entries it can hold.
    ghost room: { Self → ℕ };

    // Lets all entries go.
    fn clear(&mut self)
        ensures emptied { bag self.new ≡ [] }
        ensures same_room { room self.new ≡ room self.old };

    // Adds an entry. It is refused exactly if the queue holds its capacity, which alters nothing.
    fn put(&mut self, e: Entry) -> Result<(), Full>
        ensures puts { Puts (room self.old) e (bag self.old) (bag self.new) result }
        ensures same_room { room self.new ≡ room self.old };

    // Removes one least entry and answers it, or answers none exactly if there is none.
    fn take(&mut self) -> Option<Entry>
        ensures takes { Takes (bag self.old) (bag self.new) result }
        ensures same_room { room self.new ≡ room self.old };

    // How many entries it holds.
    fn count(&self) -> usize
        ensures { result ≡ length (bag self.now) };

    // How many it can hold.
    fn capacity(&self) -> usize
        ensures { result ≡ room self.now };

    // What every queue proves: a bag rises, and is never larger than the capacity.
    ghost rises: { (q : Self) → Rising (bag q) };

    ghost fits: { (q : Self) → length (bag q) ≤ room q };
}
