// The queues on examples: what they answer was worked by hand, or by a list that is sorted anew after
// each call.
use crate::heap::Heap;
use crate::row::Row;
use queue::entry::{Entry, Full};
use queue::interface::Queue;
use queue::sort::sort;
use std::process::Abort;
use std::test::Fail;

const MOST: usize = 24;

fn entry(estimate: u64, cost: u64, delay: u32, label: usize) -> Entry {
    Entry {
        estimate,
        cost,
        delay,
        label,
    }
}

// One put or one take of all three, by a number of the generator: few keys, so that many are equal.
fn turn(
    rt: &impl Abort,
    heap: &mut Heap,
    row: &mut Row,
    list: &mut Vec<Entry>,
    r: u64,
) -> Result<(), Fail> {
    if r % 5 < 3 {
        let e = entry(
            r % 4,
            (r >> 4) % 3,
            ((r >> 8) % 2) as u32,
            ((r >> 12) % 3) as usize,
        );
        let expected = if list.len() < MOST {
            list.push(e)?;
            list.sort()?;
            Ok(())
        } else {
            Err(Full)
        };
        assert_eq!(rt; heap.put(e), expected);
        assert_eq!(rt; row.put(e), expected);
    } else {
        let expected = (!list.is_empty()).then(|| list.remove(0));
        assert_eq!(rt; heap.take(), expected);
        assert_eq!(rt; row.take(), expected);
    }
    assert_eq!(rt; heap.count(), list.len());
    assert_eq!(rt; row.count(), list.len());
    Ok(())
}

#[test]
fn both_agree_with_a_sorted_list(rt: HostRuntime) -> Result<(), Fail> {
    let mut heap = Heap::new(rt.alloc(), MOST)?;
    let mut row = Row::new(rt.alloc(), MOST)?;
    let mut list = Vec::new(rt.alloc());
    let mut seed: u64 = 7;
    for _ in 0..400u32 {
        seed = seed
            .wrapping_mul(6364136223846793005)
            .wrapping_add(1442695040888963407);
        turn(&rt, &mut heap, &mut row, &mut list, seed >> 33)?;
    }
    Ok(())
}

fn holds_none(rt: &impl Abort, queue: &mut impl Queue) {
    assert_eq!(rt; queue.capacity(), 0);
    assert_eq!(rt; queue.put(entry(1, 1, 1, 1)), Err(Full));
    assert_eq!(rt; queue.count(), 0);
    assert_eq!(rt; queue.take(), None);
}

fn holds_one(rt: &impl Abort, queue: &mut impl Queue) {
    assert_eq!(rt; queue.capacity(), 1);
    assert_eq!(rt; queue.take(), None);
    assert_eq!(rt; queue.put(entry(2, 1, 1, 1)), Ok(()));
    assert_eq!(rt; queue.put(entry(1, 1, 1, 1)), Err(Full));
    assert_eq!(rt; queue.count(), 1);
    assert_eq!(rt; queue.take(), Some(entry(2, 1, 1, 1)));
    assert_eq!(rt; queue.put(entry(3, 1, 1, 1)), Ok(()));
    queue.clear();
    assert_eq!(rt; queue.take(), None);
}

#[test]
fn small_capacities(rt: HostRuntime) -> Result<(), Fail> {
    holds_none(&rt, &mut Heap::new(rt.alloc(), 0)?);
    holds_none(&rt, &mut Row::new(rt.alloc(), 0)?);
    holds_one(&rt, &mut Heap::new(rt.alloc(), 1)?);
    holds_one(&rt, &mut Row::new(rt.alloc(), 1)?);
    Ok(())
}

fn sorts_five(rt: &impl Abort, queue: &mut impl Queue) {
    let mut five = [
        entry(2, 5, 0, 4),
        entry(2, 4, 9, 3),
        entry(1, 9, 9, 9),
        entry(2, 4, 9, 2),
        entry(2, 4, 8, 7),
    ];
    assert_eq!(rt; sort(queue, &mut five), Ok(()));
    let rising = [
        entry(1, 9, 9, 9),
        entry(2, 4, 8, 7),
        entry(2, 4, 9, 2),
        entry(2, 4, 9, 3),
        entry(2, 5, 0, 4),
    ];
    assert_eq!(rt; five, rising);
    assert_eq!(rt; queue.count(), 0);
}

#[test]
fn sorting(rt: HostRuntime) -> Result<(), Fail> {
    sorts_five(&rt, &mut Heap::new(rt.alloc(), 5)?);
    sorts_five(&rt, &mut Row::new(rt.alloc(), 8)?);
    let mut two = [entry(2, 0, 0, 0), entry(1, 0, 0, 0)];
    assert_eq!(rt; sort(&mut Heap::new(rt.alloc(), 1)?, &mut two), Err(Full));
    assert_eq!(rt; two[0], entry(2, 0, 0, 0));
    Ok(())
}
