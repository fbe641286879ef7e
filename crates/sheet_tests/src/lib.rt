// Sheets with what they must come to, worked out from docs/SHEETS.md and docs/REFUSALS.md.
#![tactic(auto)]

#[cfg(test)]
mod tests {
    use network::legs::*;
    use network::plans::*;
    use network::refusals::*;
    use sheet::check::*;
    use sheet::reader::Reader;
    use sheet::writing::write_leg;
    use std::process::Abort;

    // A sheet, with the number and the line of its first refusal; none where it is sound.
    #[derive(Clone, Copy)]
    struct Example<'a> {
        sheet: &'a [u8],
        refusal: Option<(u8, Option<u64>)>,
    }

    fn refused<'a>(sheet: &'a [u8], number: u8, line: u64) -> Example<'a> {
        Example {
            sheet,
            refusal: Some((number, Some(line))),
        }
    }

    fn sound<'a>(sheet: &'a [u8]) -> Example<'a> {
        Example {
            sheet,
            refusal: None,
        }
    }

    fn leg(tail: u16, head: u16, fee: u32) -> Leg {
        Leg {
            tail,
            head,
            fee,
            grade: 3,
            stated: 4,
            medium: 0,
        }
    }

    // Checks each sheet with room for two legs.
    fn run(rt: &impl Abort, cases: &[Example<'_>]) {
        for c in cases {
            let mut table = [leg(0, 0, 0); 2];
            let first = check_sheet(c.sheet, &mut table).err();
            let refusal = first.map(|why| (why.number(), why.line()));
            assert_eq!(rt; refusal, c.refusal);
        }
    }

    #[test]
    fn first_lines(rt: HostRuntime) {
        run(
            &rt,
            &[
                refused(b"", 3, 1),
                refused(b"\n", 2, 1),
                refused(b"network,4", 1, 1),
                refused(b"leg,0,1,2,3,4,0\n", 3, 1),
                refused(b"plan\n", 3, 1),
                refused(b"plan", 1, 1),
                refused(b"Network,4\n", 2, 1),
                refused(b"networks,4\n", 2, 1),
                refused(b"network\n", 4, 1),
                refused(b"network,1,2\n", 4, 1),
                refused(b"network,\n", 5, 1),
                refused(b"network,4\r\n", 5, 1),
                refused(b"network,+4\n", 5, 1),
                refused(b"network,04\n", 5, 1),
                refused(b"network,10000000000\n", 5, 1),
                refused(b"network,9999999999\n", 6, 1),
                refused(b"network,1025\n", 6, 1),
                refused(b"network,0\n", 6, 1),
                sound(b"network,1024\n"),
                sound(b"network,1\n"),
            ],
        );
    }

    #[test]
    fn later_lines(rt: HostRuntime) {
        run(
            &rt,
            &[
                refused(b"network,4\nnetwork,x\n", 3, 2),
                refused(b"network,4\n\n", 2, 2),
                refused(b"network,4\nleg,x,1,2,3,4\n", 4, 2),
                refused(b"network,4\nleg,4,1,02,3,4,0\n", 5, 2),
                refused(b"network,4\nleg,4,1,2,3,4,0\n", 6, 2),
                refused(b"network,4\nleg,0,4,2,3,4,0\n", 6, 2),
                refused(b"network,4\nleg,0,1,1000001,3,4,0\n", 6, 2),
                refused(b"network,4\nleg,0,1,2,256,4,0\n", 6, 2),
                refused(b"network,4\nleg,0,1,2,3,100001,0\n", 6, 2),
                refused(b"network,4\nleg,0,1,2,3,4,8\n", 6, 2),
                sound(b"network,4\nleg,3,3,1000000,255,100000,7\n"),
                refused(
                    b"network,4\nleg,0,1,2,3,4,0\nleg,0,1,2,3,4,0\nleg,0,1,2,3,4,0\n",
                    7,
                    4,
                ),
                refused(
                    b"network,4\nleg,0,1,2,3,4,0\nleg,0,1,2,3,4,0\nleg,4,1,2,3,4,0\n",
                    6,
                    4,
                ),
                refused(b"network,4\nplan,7,0,3,9", 1, 2),
                refused(b"network,4\nplan,7,0,3\n", 4, 2),
                refused(b"network,4\nplan,1000,0,3,9\n", 6, 2),
                refused(b"network,4\nplan,7,4,3,9\n", 6, 2),
                refused(b"network,4\nplan,7,0,4,9\n", 6, 2),
                refused(b"network,4\nplan,7,0,3,1000001\n", 6, 2),
                sound(b"network,4\nplan,999,3,3,1000000\n"),
                refused(b"network,4\nplan,7,0,3,9\nleg,0,1,2,3,4,0\n", 3, 3),
            ],
        );
    }

    // What a sound sheet has; a leg's delay is what is stated and the handover delay of its medium.
    #[test]
    fn a_sound_sheet(rt: HostRuntime) {
        let mut table = [leg(0, 0, 0); 2];
        let sheet = b"network,7\nleg,6,5,9,3,100,3\nplan,0,0,0,0\nplan,0,6,5,1\nplan,1,2,3,4\n";
        let network = Network { sites: 7, legs: 1 };
        assert_eq!(rt;
            check_sheet(sheet, &mut table),
            Ok(Summary { network, plans: 3 })
        );
        assert_eq!(rt; table[0].delay(), 120);
        assert_eq!(rt; table[1], leg(0, 0, 0));
    }

    // The legs of accepted lines stand after a refusal, and the network stays; the reader stays at the line.
    #[test]
    fn a_refused_load(rt: HostRuntime) {
        let mut reader = Reader::new(b"network,9\nleg,1,2,5,3,4,0\nleg,1,2,5,3,4\n");
        let mut network = Network { sites: 3, legs: 1 };
        let mut table = [leg(0, 0, 0); 3];
        assert_eq!(rt;
            reader.load(&mut network, &mut table),
            Err(Refusal::FieldCount(3))
        );
        assert_eq!(rt; table, [leg(1, 2, 5), leg(0, 0, 0), leg(0, 0, 0)]);
        assert_eq!(rt; network, Network { sites: 3, legs: 1 });
        assert_eq!(rt; reader.line(), 3);
        assert_eq!(rt; reader.place(), 26);
        assert_eq!(rt; reader.next(&network), Err(Refusal::OutOfPlace(3)));
    }

    // A refused plan moves nothing, and the end is answered again and again.
    #[test]
    fn plans(rt: HostRuntime) {
        let mut reader = Reader::new(b"network,4\nplan,7,0,3,9\nplan,8,1,2,0\n");
        let mut network = Network::default();
        assert_eq!(rt; reader.next(&network), Err(Refusal::OutOfPlace(1)));
        assert_eq!(rt; reader.load(&mut network, &mut []), Ok(()));
        let narrow = Network { sites: 3, legs: 0 };
        assert_eq!(rt; reader.next(&narrow), Err(Refusal::FieldRange(2)));
        let first = Plan {
            broker: 7,
            start: 0,
            goal: 3,
            limit: 9,
        };
        assert_eq!(rt; reader.next(&network), Ok(Some(first)));
        let second = Plan {
            broker: 8,
            start: 1,
            goal: 2,
            limit: 0,
        };
        assert_eq!(rt; reader.next(&narrow), Ok(Some(second)));
        assert_eq!(rt; reader.next(&network), Ok(None));
        assert_eq!(rt; reader.next(&network), Ok(None));
        assert_eq!(rt; reader.load(&mut network, &mut []), Ok(()));
        assert_eq!(rt; reader.next(&network), Ok(Some(first)));
    }

    // An exactly long buffer is enough, what lies beyond the line stays, and so does the whole buffer of a refused call.
    #[test]
    fn writing(rt: HostRuntime) {
        let mut buffer = [b'.'; 22];
        assert_eq!(rt;
            write_leg(&leg(10, 1024, 70), &mut buffer),
            Err(Refusal::WrittenLegRange)
        );
        assert_eq!(rt;
            write_leg(&leg(10, 1023, 70), &mut buffer[0..20]),
            Err(Refusal::BufferShort)
        );
        assert_eq!(rt; buffer, [b'.'; 22]);
        assert_eq!(rt; write_leg(&leg(10, 1023, 70), &mut buffer[0..21]), Ok(21));
        assert_eq!(rt; buffer, *b"leg,10,1023,70,3,4,0\n.");
    }
}
