// Sheets with the text that must answer them, worked out by hand from the rules of sheets, of the search and of the answers.
#![tactic(auto)]

#[cfg(test)]
mod tests {
    use planner::tally::Tally;
    use report::answers::{BATCH, Room, plan_sheet, plan_within};
    use std::alloc::{AllocError, Global};
    use std::process::Abort;
    use std::test::Fail;

    // A sheet, the steps on its tally, and the lines that answer it after the header.
    #[derive(Clone, Copy)]
    struct Example<'a> {
        sheet: &'a [u8],
        steps: u32,
        lines: &'a [u8],
    }

    fn case<'a>(sheet: &'a [u8], steps: u32, lines: &'a [u8]) -> Example<'a> {
        Example {
            sheet,
            steps,
            lines,
        }
    }

    // The header, and these lines.
    fn answer(heap: Global, lines: &[u8]) -> Result<Vec<u8>, AllocError> {
        let mut text = Vec::from_slice(heap, b"result,broker,steps,cost,delay,legs\n")?;
        text.extend_from_slice(lines)?;
        Ok(text)
    }

    // Whether a sheet is answered by the header and these lines, with this room.
    fn is_answered_within(
        heap: Global,
        sheet: &[u8],
        room: Room,
        steps: u32,
        lines: &[u8],
    ) -> Result<bool, AllocError> {
        let report = plan_within(heap, sheet, room, Tally::of(steps))?;
        Ok(report.text == answer(heap, lines)?)
    }

    // The same with the room of the batch program.
    fn is_answered(
        heap: Global,
        sheet: &[u8],
        steps: u32,
        lines: &[u8],
    ) -> Result<bool, AllocError> {
        is_answered_within(heap, sheet, BATCH, steps, lines)
    }

    fn run(rt: &impl Abort, heap: Global, cases: &[Example<'_>]) -> Result<(), Fail> {
        for c in cases {
            assert!(rt; is_answered(heap, c.sheet, c.steps, c.lines)?);
        }
        Ok(())
    }

    // Four sites, and routes from 0 to 3 by 1 (fee 4, delay 9), by 2 (5, 3) and straight (9, 1). The first two plans want three
    // steps each, the others one. Where the steps run out, a plan stays open, and the next are open without a step.
    #[test]
    fn a_tally_that_runs_out(rt: HostRuntime) -> Result<(), Fail> {
        let sheet =
            b"network,4\nleg,0,1,2,3,4,0\nleg,1,3,2,1,5,0\nleg,0,2,4,2,1,0\nleg,2,3,1,2,2,0\nleg,0,3,9,1,1,0\nplan,7,0,3,9\nplan,8,0,3,8\nplan,12,3,3,0\nplan,999,0,3,0\n";
        run(
            &rt,
            rt.alloc(),
            &[
                case(
                    sheet,
                    8,
                    b"route,7,3,4,9,0,1\nroute,8,3,5,3,2,3\nroute,12,1,0,0\nnone,999,1\n",
                ),
                case(
                    sheet,
                    5,
                    b"route,7,3,4,9,0,1\nopen,8,2\nopen,12,0\nopen,999,0\n",
                ),
                case(sheet, 0, b"open,7,0\nopen,8,0\nopen,12,0\nopen,999,0\n"),
            ],
        )
    }

    // The sheet and the answer of examples/two-brokers, which docs/BATCH.md works out.
    #[test]
    fn two_brokers(rt: HostRuntime) -> Result<(), Fail> {
        let sheet =
            b"network,8\nleg,0,2,1200,1,12,1\nleg,0,3,900,2,40,2\nleg,1,2,1500,1,9,1\nleg,1,3,700,3,55,0\nleg,2,4,2600,0,30,0\nleg,2,5,1900,2,85,3\nleg,3,5,1400,2,70,3\nleg,3,4,3100,1,22,0\nleg,4,6,800,1,6,1\nleg,4,7,1100,1,8,1\nleg,5,6,650,3,15,2\nleg,5,7,500,3,25,2\nleg,4,5,300,2,10,0\nleg,5,4,300,2,10,0\nplan,41,0,6,60\nplan,41,0,6,150\nplan,41,0,6,1000\nplan,57,1,7,75\nplan,57,1,7,200\nplan,57,1,7,40\nplan,57,7,1,1000\n";
        let lines =
            b"route,41,4,4600,58,0,4,8\nroute,41,5,3750,149,0,5,10\nroute,41,4,2950,169,1,6,10\nroute,57,4,5200,57,2,4,9\nroute,57,4,2600,182,3,6,11\nnone,57,1\nnone,57,1\n";
        assert!(rt; is_answered(rt.alloc(), sheet, 50_000, lines)?);
        Ok(())
    }

    // From site 0, 20 legs lead to site 1 and from there 24 to site 2, each dearer by 24, or by 1, and sooner by as much than the one
    // before, so that of the 480 walks to site 2 each costs another fee, and fee and delay make 479. From there one free leg leads
    // to site 3, too slow for the limit, and one that costs 1,000. So at each of the first 501 steps of a plan the label of another
    // walk to site 0, 1 or 2 is taken, none of them dominated, and the next takes the goal's cheapest, of fee 1,000 and delay 479.
    // In 99 plans 49,698 of the 50,000 steps are made. The hundredth has 302, and the next ones have none.
    #[test]
    fn the_whole_tally(rt: HostRuntime) -> Result<(), Fail> {
        let heap = rt.alloc();
        let mut sheet = Vec::from_slice(heap, b"network,4\n")?;
        for i in 0..20u32 {
            let (fee, delay) = (24 * i, 24 * (19 - i));
            let leg = format!(in heap; "leg,0,1,{fee},0,{delay},0\n")?;
            sheet.extend_from_slice(leg.as_bytes())?;
        }
        for fee in 0..24u32 {
            let delay = 23 - fee;
            let leg = format!(in heap; "leg,1,2,{fee},0,{delay},0\n")?;
            sheet.extend_from_slice(leg.as_bytes())?;
        }
        sheet.extend_from_slice(b"leg,2,3,0,0,100000,0\nleg,2,3,1000,0,0,0\n")?;
        sheet.extend_from_slice(&b"plan,7,0,3,99999\n".repeat(heap, 100)?)?;
        sheet.extend_from_slice(b"plan,8,3,3,0\nplan,7,4,3,0\n")?;
        let mut lines = b"route,7,502,1000,479,0,20,45\n".repeat(heap, 99)?;
        lines.extend_from_slice(b"open,7,302\nopen,8,0\nrefuse,6,149\n")?;
        assert!(rt; plan_sheet(heap, &sheet)?.text == answer(heap, &lines)?);
        Ok(())
    }

    // Nothing follows a refusal. A plan of 65 sites finds no room; a line of the sheet is refused where it stands.
    #[test]
    fn refusals(rt: HostRuntime) -> Result<(), Fail> {
        run(
            &rt,
            rt.alloc(),
            &[
                case(b"", 9, b"refuse,3,1\n"),
                case(b"network,1\n", 9, b""),
                case(b"network,2\nleg,0,1,1,1,1,0\n", 9, b""),
                case(b"network,1025\nplan,1,0,0,5\n", 9, b"refuse,6,1\n"),
                case(
                    b"network,2\nleg,0,1,02,1,1,0\nplan,1,0,1,5\n",
                    9,
                    b"refuse,5,2\n",
                ),
                case(b"network,64\nplan,1,63,63,5\n", 9, b"route,1,1,0,0\n"),
                case(b"network,65\nplan,1,0,0,5\n", 9, b"refuse,11,2\n"),
                case(b"network,2\nplan,1,0,1,5", 9, b"refuse,1,2\n"),
                case(
                    b"network,2\nplan,1,0,1,5\nplan,2,0,2,5\nplan,3,0,0,5\n",
                    9,
                    b"none,1,1\nrefuse,6,3\n",
                ),
                case(
                    b"network,2\nplan,1,1,1,5\nleg,0,1,1,1,1,0\n",
                    9,
                    b"route,1,1,0,0\nrefuse,3,3\n",
                ),
                case(
                    b"network,2\nplan,1,1,1,5\nplan,2,1,1,5",
                    9,
                    b"route,1,1,0,0\nrefuse,1,3\n",
                ),
            ],
        )
    }

    // There is room for 256 legs. With one more, the load is refused at its line, the 258th.
    #[test]
    fn one_leg_too_many(rt: HostRuntime) -> Result<(), Fail> {
        let heap = rt.alloc();
        let mut sheet = Vec::from_slice(heap, b"network,2\n")?;
        sheet.extend_from_slice(&b"leg,0,1,1,1,1,0\n".repeat(heap, 256)?)?;
        let mut more = Vec::from_slice(heap, sheet.as_slice())?;
        sheet.extend_from_slice(b"plan,3,0,1,1\n")?;
        assert!(rt; is_answered(heap, &sheet, 9, b"route,3,2,1,1,0\n")?);
        more.extend_from_slice(b"leg,0,1,1,1,1,0\nplan,3,0,1,1\n")?;
        assert!(rt; is_answered(heap, &more, 9, b"refuse,7,258\n")?);
        let room = Room { legs: 257, ..BATCH };
        assert!(rt; is_answered_within(heap, &more, room, 9, b"route,3,2,1,1,0\n")?);
        Ok(())
    }

    // With tables for one site more, a network of 65 sites finds room. A search has 1 to 65,536 labels: with none, and with any
    // number above, each plan is refused.
    #[test]
    fn other_room(rt: HostRuntime) -> Result<(), Fail> {
        let heap = rt.alloc();
        let sheet = b"network,65\nplan,1,64,64,5\n";
        let sites = Room { sites: 65, ..BATCH };
        assert!(rt; is_answered_within(heap, sheet, sites, 9, b"route,1,1,0,0\n")?);
        for labels in [0, 65_537, usize::MAX] {
            let room = Room { labels, ..sites };
            assert!(rt; is_answered_within(heap, sheet, room, 9, b"refuse,11,2\n")?);
        }
        let most = Room {
            labels: 65_536,
            ..sites
        };
        assert!(rt; is_answered_within(heap, sheet, most, 9, b"route,1,1,0,0\n")?);
        Ok(())
    }

    // From site 0, 200 legs lead to site 1, each dearer by 1 and sooner by 1 than the one before. From there one free leg leads to
    // site 2, too slow for the limit, and five that cost 1,000. So 200 labels are written at step 1, and at each later step one of
    // them is taken, none of them dominated, and five more are written. Before step 166 there are 1,021; its fourth is one too
    // many. The next plan is answered all the same.
    #[test]
    fn labels_used_up(rt: HostRuntime) -> Result<(), Fail> {
        let heap = rt.alloc();
        let mut sheet = Vec::from_slice(heap, b"network,3\n")?;
        for fee in 0..200u32 {
            let delay = 199 - fee;
            let leg = format!(in heap; "leg,0,1,{fee},0,{delay},0\n")?;
            sheet.extend_from_slice(leg.as_bytes())?;
        }
        sheet.extend_from_slice(b"leg,1,2,0,0,100000,0\n")?;
        sheet.extend_from_slice(&b"leg,1,2,1000,0,0,0\n".repeat(heap, 5)?)?;
        sheet.extend_from_slice(b"plan,5,0,2,99999\nplan,6,2,2,0\n")?;
        assert!(rt; is_answered(heap, &sheet, 50_000, b"stop,5,166,16\nroute,6,1,0,0\n")?);
        Ok(())
    }

    // The network's line has 10 bytes and a plan's has 13, so that byte 16,384 lies within the 1,260th plan. With 7 bytes more in
    // the plans before, it ends the 1,259th, and what follows is not seen.
    #[test]
    fn a_sheet_too_long(rt: HostRuntime) -> Result<(), Fail> {
        let heap = rt.alloc();
        let mut sheet = Vec::from_slice(heap, b"network,1\n")?;
        sheet.extend_from_slice(&b"plan,1,0,0,0\n".repeat(heap, 1300)?)?;
        let mut lines = b"route,1,1,0,0\n".repeat(heap, 1259)?;
        let mut even = Vec::from_slice(heap, b"network,1\nplan,1,0,0,1000000\nplan,1,0,0,10\n")?;
        even.extend_from_slice(&b"plan,1,0,0,0\n".repeat(heap, 1300)?)?;
        assert!(rt; plan_sheet(heap, &even)?.text == answer(heap, &lines)?);
        lines.extend_from_slice(b"refuse,1,1261\n")?;
        assert!(rt; plan_sheet(heap, &sheet)?.text == answer(heap, &lines)?);
        Ok(())
    }
}
