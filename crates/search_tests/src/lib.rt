// Searches on small networks, with what they must come to, worked out by hand from docs/SEARCH.md.
#![tactic(auto)]

#[cfg(test)]
mod desks;
#[cfg(test)]
mod worksheets;

#[cfg(test)]
mod tests {
    use figures::network_a::{leg, legs_a, network_a};
    use network::estimates::*;
    use network::legs::*;
    use network::refusals::*;
    use network::tariffs::*;
    use promise::calls::*;
    use promise::conduct::conduct;
    use queue::interface::Queue;
    use queues::heap::Heap;
    use queues::row::Row;
    use search::record::*;
    use std::alloc::{AllocError, Global};
    use std::process::Abort;
    use std::test::Fail;
    use worksheet::records::*;

    // The least fees and delays to site 3 of network A, whose routes from 0 to 3 go by 1 (fee 4, delay 9, grade 3), by 2
    // (5, 3, 2) and straight (9, 1, 1).
    fn nearest<'a>() -> Reached<'a> {
        Reached {
            costs: &[4, 2, 1, 0],
            delays: &[1, 5, 2, 0],
        }
    }

    // What a search from 0 to 3 comes to: the verdict, the number of labels, and the route's length and legs.
    #[derive(Clone, Copy, PartialEq, Debug)]
    struct Found {
        verdict: Verdict,
        labels: usize,
        traced: Result<usize, Refusal>,
        legs: [u16; 3],
    }

    // A label as it may lie in a record that was used before.
    fn stale() -> Label {
        Label {
            mark: Mark { cost: 7, delay: 7 },
            site: 7,
            from: None,
        }
    }

    fn query(goal: u16, limit: u32) -> Query {
        Query {
            start: 0,
            goal,
            limit,
        }
    }

    // Opens a search on tables that were used before, advances it by 50 steps, and traces it.
    fn search_in<Q: Queue, T: Tariff, E: Estimate>(
        rt: &impl Abort,
        network: Network,
        table: &[Leg],
        query: Query,
        queue: &mut Q,
        tariff: &T,
        estimate: &E,
        records: usize,
    ) -> Result<Found, Fail> {
        let mut labels = [stale(); 8];
        assert!(rt; records <= 8);
        let labels = &mut labels[0..records];
        let mut least = [7; 5];
        let mut search = Search::new();
        search.open(
            query, &network, table, labels, &mut least, queue, tariff, estimate,
        )?;
        search.advance(
            50, &network, table, labels, &mut least, queue, tariff, estimate,
        )?;
        let mut legs = [9; 3];
        let traced = search.trace(&network, table, labels, &mut legs);
        Ok(Found {
            verdict: search.verdict(),
            labels: search.count,
            traced,
            legs,
        })
    }

    // The search from 0 to 3 in network A.
    fn search<Q: Queue, T: Tariff, E: Estimate>(
        rt: &impl Abort,
        queue: &mut Q,
        tariff: &T,
        estimate: &E,
        limit: u32,
        records: usize,
    ) -> Result<Found, Fail> {
        search_in(
            rt,
            network_a(),
            &legs_a(),
            query(3, limit),
            queue,
            tariff,
            estimate,
            records,
        )
    }

    fn route(
        cost: u64,
        delay: u32,
        steps: u64,
        labels: usize,
        length: usize,
        legs: [u16; 3],
    ) -> Found {
        Found {
            verdict: Verdict {
                standing: Standing::Found(Mark { cost, delay }),
                steps,
            },
            labels,
            traced: Ok(length),
            legs,
        }
    }

    fn no_route(standing: Standing, steps: u64, labels: usize) -> Found {
        Found {
            verdict: Verdict { standing, steps },
            labels,
            traced: Err(Refusal::NotFound),
            legs: [9; 3],
        }
    }

    #[test]
    fn by_the_limit(rt: HostRuntime) -> Result<(), Fail> {
        let mut heap = Heap::new(rt.alloc(), 8)?;
        assert_eq!(rt;
            search(&rt, &mut heap, &TotalFee, &nearest(), 9, 8)?,
            route(4, 9, 3, 5, 2, [0, 1, 9])
        );
        assert_eq!(rt;
            search(&rt, &mut heap, &TotalFee, &Blank, 9, 8)?,
            route(4, 9, 4, 6, 2, [0, 1, 9])
        );
        assert_eq!(rt;
            search(&rt, &mut heap, &TotalFee, &nearest(), 0, 8)?,
            no_route(Standing::Exhausted, 1, 0)
        );
        assert_eq!(rt;
            search(&rt, &mut heap, &TotalFee, &Blank, 0, 8)?,
            no_route(Standing::Exhausted, 2, 1)
        );
        Ok(())
    }

    // With the limit 8 the route by site 1 is too slow. By the worst grade the straight leg is best.
    #[test]
    fn by_the_tariff(rt: HostRuntime) -> Result<(), Fail> {
        let mut row = Row::new(rt.alloc(), 8)?;
        assert_eq!(rt;
            search(&rt, &mut row, &TotalFee, &nearest(), 8, 8)?,
            route(5, 3, 3, 4, 2, [2, 3, 9])
        );
        let graded = search(&rt, &mut row, &WorstGrade, &Blank, 9, 8)?;
        assert_eq!(rt;
            graded.verdict.standing,
            Standing::Found(Mark { cost: 1, delay: 1 })
        );
        assert_eq!(rt; graded.traced, Ok(1));
        assert_eq!(rt; graded.legs, [4, 9, 9]);
        Ok(())
    }

    // Four label records are one too few, at step 2; room for two entries is one too little, at step 1.
    #[test]
    fn by_the_room(rt: HostRuntime) -> Result<(), Fail> {
        let mut heap = Heap::new(rt.alloc(), 8)?;
        assert_eq!(rt;
            search(&rt, &mut heap, &TotalFee, &nearest(), 9, 4)?,
            no_route(Standing::Stopped(Stop::LabelsUsed), 2, 4)
        );
        assert_eq!(rt;
            search(&rt, &mut heap, &TotalFee, &nearest(), 9, 5)?,
            route(4, 9, 3, 5, 2, [0, 1, 9])
        );
        let mut two = Heap::new(rt.alloc(), 2)?;
        assert_eq!(rt;
            search(&rt, &mut two, &TotalFee, &nearest(), 9, 5)?,
            no_route(Standing::Stopped(Stop::QueueFull), 1, 3)
        );
        let mut three = Heap::new(rt.alloc(), 3)?;
        assert_eq!(rt;
            search(&rt, &mut three, &TotalFee, &nearest(), 9, 5)?,
            route(4, 9, 3, 5, 2, [0, 1, 9])
        );
        Ok(())
    }

    // The answer to an open from 0 to 3 in network A with these tables as the estimate.
    fn opened<'a, Q: Queue>(
        queue: &mut Q,
        costs: &'a [u64],
        delays: &'a [u32],
    ) -> Result<(), Refusal> {
        let mut labels = [stale(); 8];
        let mut least = [7; 5];
        let mut search = Search::new();
        search.open(
            query(3, 9),
            &network_a(),
            &legs_a(),
            &mut labels,
            &mut least,
            queue,
            &TotalFee,
            &Reached { costs, delays },
        )
    }

    // The goal must have 0 and 0. Site 1 may not cost 3, as leg 1 (fee 2) ends at the goal; nor 0, as site 0, at 4, has leg 0
    // (fee 2) to it. Site 0 may not be 2 away, as leg 4 (delay 1) ends at the goal; nor may site 1 be cut off.
    #[test]
    fn unlawful_estimates(rt: HostRuntime) -> Result<(), Fail> {
        let mut heap = Heap::new(rt.alloc(), 8)?;
        let away = &[1, 5, 2, 0];
        assert_eq!(rt; opened(&mut heap, &[4, 2, 1, 0], away), Ok(()));
        assert_eq!(rt;
            opened(&mut heap, &[4, 2, 1, 1], away),
            Err(Refusal::GoalEstimate)
        );
        assert_eq!(rt;
            opened(&mut heap, &[4, 3, 1, 0], away),
            Err(Refusal::LegEstimate(1))
        );
        assert_eq!(rt;
            opened(&mut heap, &[4, 0, 1, 0], away),
            Err(Refusal::LegEstimate(0))
        );
        assert_eq!(rt;
            opened(&mut heap, &[4, 2, 1, 0], &[2, 5, 2, 0]),
            Err(Refusal::LegEstimate(4))
        );
        assert_eq!(rt;
            opened(&mut heap, &[4, 2, 1, 0], &[1, u32::MAX, 2, 0]),
            Err(Refusal::LegEstimate(1))
        );
        Ok(())
    }

    // The search from 0 to `goal` in a network of these legs, with the blank estimate.
    fn search_among(
        rt: &impl Abort,
        heap: Global,
        network: Network,
        table: &[Leg],
        goal: u16,
        limit: u32,
    ) -> Result<Found, Fail> {
        let mut row = Row::new(heap, 8)?;
        search_in(
            rt,
            network,
            table,
            query(goal, limit),
            &mut row,
            &TotalFee,
            &Blank,
            8,
        )
    }

    // Networks that tell readings apart. In the comments on them, 2 (1: 3, 1) is label 2, at site 1, with the cost 3 and the delay 1.
    // Each step takes one label, the first one 0 (0: 0, 0).

    // A free leg from a site to itself takes no time: by it site 0 would have the delay 0 again, which is not below its record. So
    // 1 (1: 1, 1) is the only label written, and the second step takes it, at the goal.
    #[test]
    fn a_leg_that_stays(rt: HostRuntime) -> Result<(), Fail> {
        let table = [leg(0, 0, 0, 0, 0), leg(0, 1, 1, 0, 1)];
        assert_eq!(rt;
            search_among(&rt, rt.alloc(), Network { sites: 2, legs: 2 }, &table, 1, 1)?,
            route(1, 1, 2, 2, 1, [1, 9, 9])
        );
        Ok(())
    }

    // Parallel legs of one fee: 1 (1: 1, 3) and 2 (1: 1, 2) are written, as site 1 has been taken by neither. The second step takes
    // the sooner one, 2, at the goal.
    #[test]
    fn parallel_legs_of_one_fee(rt: HostRuntime) -> Result<(), Fail> {
        let table = [leg(0, 1, 1, 0, 3), leg(0, 1, 1, 0, 2)];
        assert_eq!(rt;
            search_among(&rt, rt.alloc(), Network { sites: 2, legs: 2 }, &table, 1, 5)?,
            route(1, 2, 2, 3, 1, [1, 9, 9])
        );
        Ok(())
    }

    // Parallel legs, one cheaper and one sooner: 1 (1: 1, 3) and 2 (1: 3, 1). The second step takes 1, from which site 2 would be
    // reached at 5, beyond the limit 4. The third takes 2, whose delay is below that of 1, and writes 3 (2: 4, 3), which the fourth
    // takes.
    #[test]
    fn a_dearer_and_sooner_leg(rt: HostRuntime) -> Result<(), Fail> {
        let table = [leg(0, 1, 1, 0, 3), leg(0, 1, 3, 0, 1), leg(1, 2, 1, 0, 2)];
        assert_eq!(rt;
            search_among(&rt, rt.alloc(), Network { sites: 3, legs: 3 }, &table, 2, 4)?,
            route(4, 3, 4, 4, 2, [1, 2, 9])
        );
        Ok(())
    }

    // Parallel legs of one delay: 1 (1: 1, 2) and 2 (1: 2, 2). The second step takes 1 and writes 3 (2: 10, 3). The third takes 2 and
    // drops it, as its delay is not below that of 1. The fourth takes 3.
    #[test]
    fn parallel_legs_of_one_delay(rt: HostRuntime) -> Result<(), Fail> {
        let table = [leg(0, 1, 1, 0, 2), leg(0, 1, 2, 0, 2), leg(1, 2, 9, 0, 1)];
        assert_eq!(rt;
            search_among(&rt, rt.alloc(), Network { sites: 3, legs: 3 }, &table, 2, 9)?,
            route(10, 3, 4, 4, 2, [0, 2, 9])
        );
        Ok(())
    }

    // What a call is answered: the steps made or the legs traced, 0 where there are none to tell; or the number of its refusal.
    fn told(answer: &Answer) -> Result<usize, u8> {
        let told = match answer {
            Answer::Opened(opened) => opened.map(|_| 0),
            Answer::Advanced(advanced) => advanced.map(|steps| steps as usize),
            Answer::Told(_) => Ok(0),
            Answer::Traced(traced) => traced.as_ref().map(|legs| legs.len()).map_err(|why| *why),
        };
        told.map_err(|why| why.number())
    }

    // A list of calls, refused ones among them.
    fn calls(heap: Global) -> Result<Vec<Request>, AllocError> {
        Ok(vec![in heap;
            Request::Advance(1),
            Request::Trace(vec![in heap; 0; 5]?),
            Request::Open(query(3, 9)),
            Request::Advance(2),
            Request::Advance(9),
            Request::Trace(vec![in heap; 0; 1]?),
            Request::Trace(vec![in heap; 0; 5]?),
            Request::Open(query(4, 9)),
            Request::Verdict,
        ]?)
    }

    // Makes these calls on one worksheet, in network A.
    fn conduct_calls(heap: Global, events: &mut Vec<Event>) -> Result<(), Fail> {
        let mut queue = Heap::new(heap, 3)?;
        let mut labels = [stale(); 5];
        let mut least = [7; 4];
        conduct(
            calls(heap)?,
            &network_a(),
            &legs_a(),
            &mut labels,
            &mut least,
            &mut queue,
            &TotalFee,
            &nearest(),
            events,
        )?;
        Ok(())
    }

    // What each of them is due, and the verdict after it.
    fn due() -> [(Call, Result<usize, u8>, Standing, u64); 9] {
        let found = Standing::Found(Mark { cost: 4, delay: 9 });
        [
            (Call::Advance(1), Err(13), Standing::Fresh, 0),
            (Call::Trace(5), Err(14), Standing::Fresh, 0),
            (Call::Open(query(3, 9)), Ok(0), Standing::Open, 0),
            (Call::Advance(2), Ok(2), Standing::Open, 2),
            (Call::Advance(9), Ok(1), found, 3),
            (Call::Trace(1), Err(18), found, 3),
            (Call::Trace(5), Ok(2), found, 3),
            (Call::Open(query(4, 9)), Err(10), found, 3),
            (Call::Verdict, Ok(0), found, 3),
        ]
    }

    // The events are as due, in a vector that has no room for them, and in one that has room and held others before; that one
    // keeps its capacity.
    #[test]
    fn a_list_of_calls(rt: HostRuntime) -> Result<(), Fail> {
        let heap = rt.alloc();
        let mut without_room = Vec::new(heap);
        conduct_calls(heap, &mut without_room)?;
        let mut with_room = Vec::with_capacity(heap, 9)?;
        conduct_calls(heap, &mut with_room)?;
        conduct_calls(heap, &mut with_room)?;
        assert_eq!(rt; with_room.capacity(), 9);
        for events in [&without_room, &with_room] {
            assert_eq!(rt; events.len(), 9);
            for (event, (call, answer, standing, steps)) in events.iter().zip(due()) {
                assert_eq!(rt; event.call, call);
                assert_eq!(rt; told(&event.answer), answer);
                assert_eq!(rt; event.after, Verdict { standing, steps });
                if let Answer::Traced(Ok(legs)) = &event.answer {
                    assert_eq!(rt; legs.as_slice(), [0, 1].as_slice());
                }
            }
        }
        Ok(())
    }
}
