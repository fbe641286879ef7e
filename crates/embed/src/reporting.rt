// A whole sheet, answered by text.
ghost use Rattle.std.specs.Prelude.{◌≡◌};
ghost use Rattle.embed.specs.Buffers.{laid};
ghost use Rattle.embed.specs.Texts.{put_record, Answered};

use crate::laying::lay;
use planner::tally::Tally;
use report::answers::{Room, plan_within};
use std::alloc::Global;

// What planning a sheet may use: tables for so many sites and so many legs, so many label records, a queue for as many entries, and
// so many steps of all its plans together.
#[repr(C)]
#[derive(Clone, Copy, PartialEq, Eq, Debug)]
pub struct Allowance {
    pub sites: usize,
    pub legs: usize,
    pub labels: usize,
    pub steps: u32,
}

// How a text was put into a buffer: its length, and code 0 where it is there, 1 where the buffer is too short for it, and 2
// where memory is short, of which the length is 0.
#[repr(C)]
#[derive(Clone, Copy, PartialEq, Eq, Debug)]
pub struct Written {
    pub length: usize,
    pub code: u8,
}

// How a text was put, each with its code.
#[derive(Clone, Copy)]
enum Code {
    There = 0,
    BufferShort = 1,
    MemoryShort = 2,
}

// Puts a text into a buffer, if it is long enough.
fn put_text(text: &[u8], output: &mut [u8]) -> Written
    ensures answer { result ≡ put_record text.now output.old }
    ensures after { output.new ≡ laid text.now output.old }
{
    let code = if lay(text, output) {
        Code::There
    } else {
        Code::BufferShort
    };
    Written {
        length: text.len(),
        code: code as u8,
    }
}

// Answers the plans of a sheet by text, as the batch program does, with the room and the steps that are allowed, and puts it into a
// buffer, if it is long enough.
#[unsafe(no_mangle)]
pub extern "C" fn deqibur_plan_sheet(
    heap: Global,
    sheet: &[u8],
    allowance: &Allowance,
    output: &mut [u8],
) -> Written
    ensures { Answered sheet.now allowance.now output.old output.new result }
{
    let room = Room {
        sites: allowance.sites,
        legs: allowance.legs,
        labels: allowance.labels,
    };
    let Ok(report) = plan_within(heap, sheet, room, Tally::of(allowance.steps)) else {
        return Written {
            length: 0,
            code: Code::MemoryShort as u8,
        };
    };
    put_text(&report.text, output)
}
