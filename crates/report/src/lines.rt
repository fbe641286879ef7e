// The lines that answer plans.
ghost use Rattle.std.specs.Prelude.{◌≡◌, ◌∷◌, ◌++◌, decimal, OnOk};
ghost use Rattle.sheet.specs.Writing.{listed};
ghost use Rattle.report.specs.Lines.{text_line, plan_line, end_line};

use network::plans::Plan;
use network::refusals::Refusal;
use search::record::*;
use std::alloc::AllocError;

// A number in decimal.
fn push_number(text: &mut Vec<u8>, n: u64) -> Result<(), AllocError>
    ensures { OnOk result (text.new.items ≡ text.old.items ++ decimal n) }
{
    if n < 10 {
        text.push(b'0' + n as u8)?;
        return Ok(());
    }
    push_number(text, n / 10)?;
    text.push(b'0' + (n % 10) as u8)?;
    Ok(())
}

// A comma, and a number in decimal.
fn push_field(text: &mut Vec<u8>, n: u64) -> Result<(), AllocError>
    ensures { OnOk result (text.new.items ≡ text.old.items ++ (44 ∷ decimal n)) }
{
    text.push(b',')?;
    push_number(text, n)
}

// Numbers, each after a comma.
fn push_fields(text: &mut Vec<u8>, numbers: &[u64]) -> Result<(), AllocError>
    ensures { OnOk result (text.new.items ≡ text.old.items ++ listed numbers.now) }
{
    for n in numbers {
        push_field(text, *n)?;
    }
    Ok(())
}

// Leg numbers, each after a comma.
fn push_legs(text: &mut Vec<u8>, legs: &[u16]) -> Result<(), AllocError>
    ensures { OnOk result (text.new.items ≡ text.old.items ++ listed legs.now) }
{
    for leg in legs {
        push_field(text, u64::from(*leg))?;
    }
    Ok(())
}

// A line: its word, its numbers, then leg numbers, and its end byte.
#[tactic(auto, using(crate::proofs::Listing::line_pieces))]
fn push_line(
    text: &mut Vec<u8>,
    word: &[u8],
    numbers: &[u64],
    legs: &[u16],
) -> Result<(), AllocError>
    ensures { OnOk result (text.new.items ≡ text.old.items ++ text_line word.now (numbers.now ++ legs.now)) }
{
    text.extend_from_slice(word)?;
    push_fields(text, numbers)?;
    push_legs(text, legs)?;
    text.push(b'\n')?;
    Ok(())
}

// The line that answers a plan that was served. `legs` are those of the route, where one was found.
pub(crate) fn push_plan(
    text: &mut Vec<u8>,
    plan: Plan,
    verdict: Verdict,
    legs: &[u16],
) -> Result<(), AllocError>
    ensures { OnOk result (text.new.items ≡ text.old.items ++ plan_line plan verdict legs.now) }
{
    let broker = u64::from(plan.broker);
    let steps = verdict.steps;
    match verdict.standing {
        Standing::Found(mark) => push_line(
            text,
            b"route",
            &[broker, steps, mark.cost, u64::from(mark.delay)],
            legs,
        ),
        Standing::Exhausted => push_line(text, b"none", &[broker, steps], &[]),
        Standing::Fresh | Standing::Open => push_line(text, b"open", &[broker, steps], &[]),
        Standing::Stopped(why) => {
            push_line(
                text,
                b"stop",
                &[broker, steps, u64::from(why.number())],
                &[],
            )
        }
    }
}

// A refusal, and the line of the sheet that it was met at.
#[derive(Clone, Copy, PartialEq, Eq, Debug)]
pub struct Refused {
    pub why: Refusal,
    pub line: u64,
}

// The last line, which tells the refusal that ended the answers, if one did.
pub(crate) fn push_end(text: &mut Vec<u8>, end: Option<Refused>) -> Result<(), AllocError>
    ensures { OnOk result (text.new.items ≡ text.old.items ++ end_line end) }
{
    let Some(refused) = end else {
        return Ok(());
    };
    let number = u64::from(refused.why.number());
    push_line(text, b"refuse", &[number, refused.line], &[])
}
