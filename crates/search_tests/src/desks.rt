// Plans at one desk, on network A of docs/FIGURES.md, with what they must come to. From 0 to 3 lead the legs 0 and 1 (fee 4, delay 9),
// 2 and 3 (5, 3), and 4 (9, 1).
use figures::network_a::{legs_a, network_a};
use network::plans::Plan;
use network::refusals::Refusal;
use network::tariffs::TotalFee;
use planner::desk::Desk;
use planner::tally::Tally;
use search::record::*;
use std::test::Fail;
use worksheet::records::*;

fn from_0_to_3(limit: u32) -> Plan {
    Plan {
        broker: 7,
        start: 0,
        goal: 3,
        limit,
    }
}

fn found(cost: u64, delay: u32) -> Result<Verdict, Refusal> {
    Ok(Verdict {
        standing: Standing::Found(Mark { cost, delay }),
        steps: 3,
    })
}

// Limits of 9, 8 and 0 want 3, 3 and 1 steps. With 8 on the tally, the fourth plan finds one left, and stays open.
#[test]
fn plans_from_one_tally(rt: HostRuntime) -> Result<(), Fail> {
    let table = legs_a();
    let network = network_a();
    let mut desk = Desk::new(rt.alloc(), 4, 8)?;
    let mut tally = Tally::of(8);

    let cheapest = desk.serve(from_0_to_3(9), &network, &table, &TotalFee, &mut tally);
    assert_eq!(rt; cheapest, found(4, 9));
    assert_eq!(rt;
        desk.route(rt.alloc(), &network, &table)?.as_slice(),
        [0, 1].as_slice()
    );

    let sooner = desk.serve(from_0_to_3(8), &network, &table, &TotalFee, &mut tally);
    assert_eq!(rt; sooner, found(5, 3));
    assert_eq!(rt;
        desk.route(rt.alloc(), &network, &table)?.as_slice(),
        [2, 3].as_slice()
    );

    let none = desk.serve(from_0_to_3(0), &network, &table, &TotalFee, &mut tally);
    assert_eq!(rt;
        none,
        Ok(Verdict {
            standing: Standing::Exhausted,
            steps: 1
        })
    );
    assert!(rt; desk.route(rt.alloc(), &network, &table)?.is_empty());

    let open = desk.serve(from_0_to_3(9), &network, &table, &TotalFee, &mut tally);
    assert_eq!(rt;
        open,
        Ok(Verdict {
            standing: Standing::Open,
            steps: 1
        })
    );
    assert_eq!(rt; tally, Tally::of(0));
    Ok(())
}

// A network of more sites than the desk has tables for is refused, and takes nothing off.
#[test]
fn one_site_too_many(rt: HostRuntime) -> Result<(), Fail> {
    let table = legs_a();
    let network = network_a();
    let mut desk = Desk::new(rt.alloc(), 3, 8)?;
    let mut tally = Tally::of(8);
    let refused = desk.serve(from_0_to_3(9), &network, &table, &TotalFee, &mut tally);
    assert_eq!(rt; refused, Err(Refusal::Room));
    assert_eq!(rt; tally, Tally::of(8));
    Ok(())
}
