// Calls on worksheets that no search has made, on network A of docs/FIGURES.md, whose legs 0, 2 and 4 lead from site 0 to the sites
// 1, 2 and 3, and leg 1 from 1 to 3.
use figures::network_a::{legs_a, network_a};
use network::estimates::Blank;
use network::refusals::{Refusal, Stop};
use network::tariffs::TotalFee;
use queue::entry::Entry;
use queue::interface::Queue;
use queues::heap::Heap;
use search::record::*;
use std::test::Fail;
use worksheet::records::*;

const FROM_0_TO_3: Query = Query {
    start: 0,
    goal: 3,
    limit: 9,
};

// An open search that has written `count` labels and made five steps.
fn under_way(count: usize) -> Search {
    Search {
        query: FROM_0_TO_3,
        phase: Phase::Open,
        count,
        steps: 5,
    }
}

fn entry(label: usize) -> Entry {
    Entry {
        estimate: 0,
        cost: 0,
        delay: 0,
        label,
    }
}

// Puts the entry of this label into the queue, and lets the search make up to three steps.
fn advanced<Q: Queue>(
    search: &mut Search,
    label: usize,
    labels: &mut [Label],
    least: &mut [u32],
    queue: &mut Q,
) -> Result<u32, Fail> {
    queue.clear();
    queue.put(entry(label))?;
    let made = search.advance(
        3,
        &network_a(),
        &legs_a(),
        labels,
        least,
        queue,
        &TotalFee,
        &Blank,
    )?;
    Ok(made)
}

// A step stops by 15 where the label of its entry is not written (label 1, with one label written) or has no record (label 2, with
// three written and two records), and where a leg from the label's site leads beyond the least-delay records (leg 4, to site 3, with
// records of the sites 0 to 2). The step is counted, as the sixth, and no other is made; its entry is taken. The question, the labels
// and the least-delay records stay as they were.
#[test]
fn stops_outside(rt: HostRuntime) -> Result<(), Fail> {
    let mut queue = Heap::new(rt.alloc(), 8)?;
    let outside = Phase::Stopped(Stop::Outside);
    for (count, label, records) in [(1, 1, 4), (3, 2, 4), (1, 0, 3)] {
        let mut search = under_way(count);
        let mut labels = [Label::default(); 2];
        let mut least = [7; 4];
        let made = advanced(
            &mut search,
            label,
            &mut labels,
            &mut least[..records],
            &mut queue,
        )?;
        assert_eq!(rt; made, 1);
        assert_eq!(rt;
            search,
            Search {
                phase: outside,
                steps: 6,
                ..under_way(count)
            }
        );
        assert_eq!(rt; queue.count(), 0);
        assert_eq!(rt; labels, [Label::default(); 2]);
        assert_eq!(rt; least, [7; 4]);
    }
    Ok(())
}

fn label(site: u16, parent: usize, leg: u16) -> Label {
    Label {
        site,
        from: Some(Origin { parent, leg }),
        ..Label::default()
    }
}

// Label 2 is found, and comes by leg 1 from label 1, which comes by leg 0 from label 0: the route is 0, 1. A trace is refused by 15
// where label 2 is its own parent, which is not before it, and where its leg is 5, with the legs 0 to 4. Then it writes nothing.
#[test]
fn traces_of_any_labels(rt: HostRuntime) -> Result<(), Fail> {
    let search = Search {
        phase: Phase::Found(2, Mark::default()),
        ..under_way(3)
    };
    for (parent, leg, traced, buffer) in [
        (1, 1, Ok(2), [0, 1, 9]),
        (2, 1, Err(Refusal::Outside), [9; 3]),
        (1, 5, Err(Refusal::Outside), [9; 3]),
    ] {
        let labels = [Label::default(), label(1, 0, 0), label(3, parent, leg)];
        let mut legs = [9; 3];
        assert_eq!(rt;
            search.trace(&network_a(), &legs_a(), &labels, &mut legs),
            traced
        );
        assert_eq!(rt; legs, buffer);
    }
    Ok(())
}
