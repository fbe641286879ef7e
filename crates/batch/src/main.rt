// Answers the plans of a sheet: reads the first 16,384 bytes of standard input, and writes a header, a line for each plan in its
// order, and, where something is refused, a last line. Then a sentence on standard error tells what is wrong and where.
#![tactic(auto)]

ghost use Rattle.std.specs.Prelude.{List, ℕ, Option, take, IfSome, OnOk};
ghost use Rattle.std.specs.Io.KnownBytes.{Appends};
ghost use Rattle.planner.specs.Tallies.{whole};
ghost use Rattle.report.specs.declared.lines.Refused.{Refused};
ghost use Rattle.report.specs.Reports.{Reports, batch_room};

use network::refusals::Refusal;
use report::answers::{SHEET, plan_sheet};
use std::io::{self, Read, Write};

// What is wrong, for whoever typed the sheet.
fn advice(refusal: &Refusal) -> &'static str {
    match refusal {
        Refusal::Unended(_) => {
            "the line is cut off; every line, the last one too, must end with a line feed, and no more than 16384 bytes of a sheet are read"
        }
        Refusal::TableFull(_) => "there is one leg too many; there is room for 256",
        Refusal::Room => "the network has too many sites; there is room for 64",
        _ => sheet::advice::advice(refusal),
    }
}

// Reads the first bytes of the input as a sheet, and writes the text that answers it.
fn run<R: Read + Drop, W: Write>(
    rt: &(impl Eprint + AllocGlobal),
    input: R,
    output: &mut W,
) -> io::Result<()>
    ensures answered { OnOk result (IfSome (R.remaining input) (λ bytes. (text : List ℕ) × (end : Option Refused) × Reports batch_room (take 16384 bytes) whole text end × Appends (W.contents output.old) (W.contents output.new) text)) }
{
    let heap = rt.alloc();
    let mut sheet = Vec::new(heap);
    input.take(SHEET as u64).read_to_end(&mut sheet)?;
    let report = plan_sheet(heap, &sheet)?;
    output.write_all(&report.text)?;
    if sheet.len() == SHEET {
        let _ = eprintln!(rt; "the first {SHEET} bytes were read; what follows them was not seen");
    }
    if let Some(refused) = report.refused {
        let line = refused.line;
        let advice = advice(&refused.why);
        let _ = eprintln!(rt; "line {line}: {advice}; no plan from this line on was answered");
    }
    Ok(())
}

fn main(rt: HostRuntime) -> io::Result<()> {
    run(&rt, rt.stdin(), &mut io::writer(&rt))
}

#[cfg(test)]
mod tests {
    use super::run;
    use std::io::{self, Read};
    use std::test::Fail;

    // A pipe that gives at most three bytes with each read.
    #[derive(Drop)]
    struct Drips<'a> {
        left: &'a [u8],
    }

    impl Read for Drips<'_> {
        fn read(&mut self, buf: &mut [u8]) -> io::Result<usize> {
            let most = buf.len().min(3);
            self.left.read(&mut buf[..most])
        }
    }

    // Whether a sheet that comes in parts is answered by the header and these lines.
    fn is_answered(
        rt: &(impl Eprint + AllocGlobal),
        sheet: &[u8],
        lines: &[u8],
    ) -> io::Result<bool> {
        let heap = rt.alloc();
        let mut expected = Vec::from_slice(heap, b"result,broker,steps,cost,delay,legs\n")?;
        expected.extend_from_slice(lines)?;
        let mut text = Vec::new(heap);
        run(rt, Drips { left: sheet }, &mut text)?;
        Ok(text == expected)
    }

    // What comes in parts is read on, up to the sheet's end or to its first 16,384 bytes. In the second sheet these end with the
    // line of the 1,259th plan.
    #[test]
    fn short_reads_go_on(rt: HostRuntime) -> Result<(), Fail> {
        let heap = rt.alloc();
        let sheet = b"network,2\nleg,0,1,2,3,4,1\nplan,7,0,1,9\nplan,7,0,1,8\n";
        assert!(rt; is_answered(&rt, sheet, b"route,7,2,2,9,0\nnone,7,1\n")?);
        let mut long = Vec::from_slice(heap, b"network,1\nplan,1,0,0,1000000\nplan,1,0,0,10\n")?;
        long.extend_from_slice(&b"plan,1,0,0,0\n".repeat(heap, 1300)?)?;
        assert!(rt; is_answered(&rt, &long, &b"route,1,1,0,0\n".repeat(heap, 1259)?)?);
        Ok(())
    }
}
