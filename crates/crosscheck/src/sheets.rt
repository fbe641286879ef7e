// The reading of sheets, compared with a second, independent reader, on sheets that the rules name and on damaged sheets that are
// drawn from seeds.
//
// The second reader goes over a sheet line by line and keeps no more than what it has counted. It shares no code with crate
// `sheet`, whose answers it is compared with.
ghost use Rattle.std.specs.Prelude.{◌≡◌, length, IfOk, OnOk};
ghost use Rattle.sheet.specs.Check.{checked};
ghost use Rattle.crosscheck.specs.Counts.{one_more};
ghost use Rattle.crosscheck.specs.Readings.{reading_of, seed_noted, Told};

use crate::draws::Draws;
use crate::report::count;
use network::legs::{Leg, Network};
use network::limits::MOST_LEGS;
use network::refusals::Refusal;
use sheet::check::{Summary, check_sheet};
use std::alloc::{AllocError, Global};
use std::io;

// How many sheets are drawn.
const DRAWN: u32 = 4_000;

// What is put into a sheet where it is damaged.
const DAMAGES: [u8; 16] = *b"0129,,\n\rnlp -+.x";

// The words that lines have.
const WORDS: [&[u8]; 3] = [b"network", b"leg", b"plan"];

// What a sheet has, or the number and the line of its first refusal.
#[derive(Clone, Copy, PartialEq, Eq)]
pub enum Reading {
    Sound { sites: u64, legs: u64, plans: u64 },
    Refused { number: u8, line: u64 },
}

impl From<Result<Summary, Refusal>> for Reading {
    fn from(answer: Result<Summary, Refusal>) -> Reading
        ensures { result ≡ reading_of answer }
    {
        match answer {
            Ok(Summary { network, plans }) => {
                let Network { sites, legs } = network;
                Reading::Sound {
                    sites: u64::from(sites),
                    legs: u64::from(legs),
                    plans,
                }
            }
            Err(refusal) => Reading::Refused {
                number: refusal.number(),
                line: refusal.line().unwrap_or(0),
            },
        }
    }
}

// The value of 1 to 10 digits, with no leading 0 unless it is `0`.
fn value(field: &[u8]) -> Option<u64> {
    let leading = field.len() > 1 && field.first() == Some(&b'0');
    let digits = field.iter().all(|byte| (b'0'..=b'9').contains(byte));
    if leading || !digits || field.is_empty() || field.len() > 10 {
        return None;
    }
    let mut value = 0u64;
    for byte in field {
        value = value
            .saturating_mul(10)
            .saturating_add(u64::from(byte.saturating_sub(b'0')));
    }
    Some(value)
}

// Fails by the number of the first rule that the fields after a line's word break: there is one for each of the greatest values,
// each is a number, and each is from `low` to its greatest value.
fn check_fields(line: &[u8], low: u64, greatest: &[u64]) -> Result<(), u8> {
    if line.iter().filter(|byte| **byte == b',').count() != greatest.len() {
        return Err(4);
    }
    for field in line.split(|byte| *byte == b',').skip(1) {
        let _ = value(field).ok_or(5u8)?;
    }
    for (field, most) in line.split(|byte| *byte == b',').skip(1).zip(greatest) {
        let value = value(field).unwrap_or(0);
        if value < low || value > *most {
            return Err(6);
        }
    }
    Ok(())
}

// What the lines read so far have; no sites before the network line.
#[derive(Clone, Copy, Default)]
struct Counted {
    sites: u64,
    legs: usize,
    plans: u64,
}

impl Counted {
    // Reads one ended line more, with room for so many legs, or fails by the number of its refusal.
    fn read(&mut self, line: &[u8], room: usize) -> Result<(), u8> {
        let word = line.split(|byte| *byte == b',').next().unwrap_or(line);
        let (first, last) = (self.sites == 0, self.sites.saturating_sub(1));
        if word == b"network".as_slice() && first {
            check_fields(line, 1, &[1024])?;
            let sites = line.split(|byte| *byte == b',').nth(1);
            self.sites = sites.and_then(value).unwrap_or(0);
        } else if word == b"leg".as_slice() && !first && self.plans == 0 {
            check_fields(line, 0, &[last, last, 1_000_000, 255, 100_000, 7])?;
            if self.legs >= room || self.legs >= 4096 {
                return Err(7);
            }
            count(&mut self.legs, 1);
        } else if word == b"plan".as_slice() && !first {
            check_fields(line, 0, &[999, last, last, 1_000_000])?;
            self.plans = self.plans.saturating_add(1);
        } else {
            return Err(if WORDS.contains(&word) { 3 } else { 2 });
        }
        Ok(())
    }
}

// Reads a sheet from its first line to its last. What follows the last end byte is a line without its end, unless it is empty.
fn second_reading(sheet: &[u8], room: usize) -> Reading {
    let ended = sheet.iter().filter(|byte| **byte == b'\n').count();
    let mut counted = Counted::default();
    for (i, text) in sheet.split(|byte| *byte == b'\n').enumerate() {
        let read = if i < ended {
            counted.read(text, room)
        } else if !text.is_empty() {
            Err(1)
        } else if i == 0 {
            Err(3)
        } else {
            Ok(())
        };
        if let Err(number) = read {
            let line = (i as u64).saturating_add(1);
            return Reading::Refused { number, line };
        }
    }
    Reading::Sound {
        sites: counted.sites,
        legs: counted.legs as u64,
        plans: counted.plans,
    }
}

// How many sheets were compared, how often they were sound and how often refused by each number, and the seed of each sheet of
// which the two readers differ.
#[derive(Drop)]
struct Readings {
    compared: usize,
    sound: usize,
    refused: [usize; 7],
    differences: Vec<u32>,
}

impl Readings {
    // Counts what a sheet came to.
    fn add(&mut self, reading: Reading)
        ensures counted { self.new.compared ≡ one_more self.old.compared }
        ensures same_differences { self.new.differences ≡ self.old.differences }
    {
        count(&mut self.compared, 1);
        match reading {
            Reading::Sound { .. } => count(&mut self.sound, 1),
            Reading::Refused { number, .. } => {
                let i = usize::from(number).saturating_sub(1);
                if let Some(tally) = self.refused.get_mut(i) {
                    count(tally, 1);
                }
            }
        }
    }

    // Notes the seed of a sheet of which the readers differ.
    fn note(&mut self, seed: u32, same: bool) -> Result<(), AllocError>
        ensures noted { OnOk result (self.new.differences.items ≡ seed_noted self.old.differences.items seed same) }
        ensures same_count { self.new.compared ≡ self.old.compared }
    {
        if !same {
            self.differences.push(seed)?;
        }
        Ok(())
    }

    // Has a sheet read by both, with the room of the table, and answers what it comes to by the second reader.
    fn compare(&mut self, seed: u32, sheet: &[u8], table: &mut [Leg]) -> Result<Reading, AllocError>
        ensures counted { OnOk result (self.new.compared ≡ one_more self.old.compared) }
        ensures told { IfOk result (λ own. Told own (reading_of (checked (length table.old) sheet.now)) seed self.old.differences.items self.new.differences.items) }
    {
        let own = second_reading(sheet, table.len());
        let other = Reading::from(check_sheet(sheet, table));
        self.add(own);
        self.note(seed, own == other)?;
        Ok(own)
    }

    // How many sheets were read, what they came to, and what differed.
    fn print(&self, rt: &impl Print) -> io::Result<()> {
        let Readings {
            compared,
            sound,
            ..
        } = self;
        println!(rt; "sheets,{compared}\nsheets sound,{sound}")?;
        for (i, times) in self.refused.iter().enumerate() {
            let number = i + 1;
            println!(rt; "sheets refused by {number},{times}")?;
        }
        for seed in &self.differences {
            println!(rt; "sheet difference,{seed}")?;
        }
        let count = self.differences.len();
        println!(rt; "sheet differences,{count}")
    }
}

// A number from 0 to `most`: small, or one of the two ends.
fn number(draws: &mut Draws, most: u32) -> u32 {
    match draws.up_to(3) {
        0 => 0,
        1 => most,
        _ => u32::from(draws.up_to(9)).min(most),
    }
}

// A leg's line.
fn leg_line(draws: &mut Draws, heap: Global, last: u32) -> Result<String, AllocError> {
    let (tail, head) = (number(draws, last), number(draws, last));
    let (fee, grade) = (number(draws, 1_000_000), number(draws, 255));
    let (stated, medium) = (number(draws, 100_000), number(draws, 7));
    format!(in heap; "leg,{tail},{head},{fee},{grade},{stated},{medium}\n")
}

// A plan's line.
fn plan_line(draws: &mut Draws, heap: Global, last: u32) -> Result<String, AllocError> {
    let (broker, start) = (number(draws, 999), number(draws, last));
    let (goal, limit) = (number(draws, last), number(draws, 1_000_000));
    format!(in heap; "plan,{broker},{start},{goal},{limit}\n")
}

// The lines of a sound sheet: up to 4 legs and 3 plans.
fn sound_lines(draws: &mut Draws, heap: Global) -> Result<Vec<String>, AllocError> {
    let last = number(draws, 1023);
    let sites = u64::from(last) + 1;
    let mut lines = vec![in heap; format!(in heap; "network,{sites}\n")?]?;
    for _ in 0..draws.up_to(4) {
        lines.push(leg_line(draws, heap, last)?)?;
    }
    for _ in 0..draws.up_to(3) {
        lines.push(plan_line(draws, heap, last)?)?;
    }
    Ok(lines)
}

// The sheet of these lines, of which two may be swapped and one doubled.
fn joined(draws: &mut Draws, heap: Global, mut lines: Vec<String>) -> Result<Vec<u8>, AllocError> {
    let (one, other) = (usize::from(draws.up_to(20)), usize::from(draws.up_to(8)));
    if one < lines.len() && other < lines.len() {
        lines.swap(one, other);
    }
    let doubled = usize::from(draws.up_to(20));
    let mut sheet = Vec::new(heap);
    for (i, line) in lines.iter().enumerate() {
        sheet.extend_from_slice(line.as_bytes())?;
        if i == doubled {
            sheet.extend_from_slice(line.as_bytes())?;
        }
    }
    Ok(sheet)
}

// The sheet with a byte changed or removed, with up to ten bytes more, or without its end.
fn damaged(draws: &mut Draws, heap: Global, sheet: &[u8]) -> Result<Vec<u8>, AllocError> {
    let place = usize::from(draws.up_to(u16::try_from(sheet.len()).unwrap_or(u16::MAX)));
    let put = DAMAGES.get(usize::from(draws.up_to(15))).copied();
    let (damage, more) = (draws.up_to(9), draws.up_to(9));
    let mut text = Vec::new(heap);
    for (i, byte) in sheet.iter().enumerate() {
        if i != place {
            text.push(*byte)?;
            continue;
        }
        match damage {
            0 => break,
            1..=3 => {}
            4..=6 => text.push(put.unwrap_or(0))?,
            _ => {
                for _ in 0..=more {
                    text.push(put.unwrap_or(0))?;
                }
                text.push(*byte)?;
            }
        }
    }
    Ok(text)
}

// A sheet of a seed: a sound one, with its lines out of order or not, damaged up to three times.
fn drawn_sheet(seed: u32, heap: Global) -> Result<Vec<u8>, AllocError> {
    let mut draws = Draws::new(seed);
    let lines = sound_lines(&mut draws, heap)?;
    let mut sheet = joined(&mut draws, heap, lines)?;
    for _ in 0..draws.up_to(3) {
        sheet = damaged(&mut draws, heap, &sheet)?;
    }
    Ok(sheet)
}

// Prints what a named sheet comes to.
fn print_reading(rt: &impl Print, name: &str, reading: Reading) -> io::Result<()> {
    match reading {
        Reading::Sound { sites, legs, plans } => {
            println!(rt; "sheet,{name},sites {sites},legs {legs},plans {plans}")
        }
        Reading::Refused { number, line } => {
            println!(rt; "sheet,{name},refused by {number},line {line}")
        }
    }
}

// Sheets that the rules name.
fn named_sheets() -> [(&'static str, &'static [u8]); 17] {
    [
        ("1025 sites", b"network,1025\n"),
        ("a leading zero", b"network,4\nleg,0,1,02,3,4,0\n"),
        ("nothing", b""),
        ("an empty line", b"network,4\n\n"),
        ("no end byte", b"network,4\nplan,7,0,3,9"),
        ("no field", b"network\n"),
        ("an empty field", b"network,\n"),
        ("eleven digits", b"network,10000000000\n"),
        ("ten digits", b"network,9999999999\n"),
        ("a second network line", b"network,4\nnetwork,4\n"),
        (
            "a leg after a plan",
            b"network,4\nplan,7,0,3,9\nleg,0,1,2,3,4,0\n",
        ),
        ("a leg with five fields", b"network,4\nleg,0,1,2,3,4\n"),
        ("a leg with seven fields", b"network,4\nleg,0,1,2,3,4,0,0\n"),
        (
            "a site that is the number of sites",
            b"network,4\nleg,0,4,2,3,4,0\n",
        ),
        ("carriage returns", b"network,4\r\n"),
        ("a form before a range", b"network,4\nleg,4,1,02,3,4,0\n"),
        (
            "network A and its plans",
            b"network,4\nleg,0,1,2,3,4,0\nleg,1,3,2,1,5,0\nleg,0,2,4,2,1,0\nleg,2,3,1,2,2,0\nleg,0,3,9,1,1,0\nplan,7,0,3,9\nplan,7,0,3,8\nplan,12,0,3,0\nplan,12,3,3,0\n",
        ),
    ]
}

// Compares the two readers on the sheets that the rules name, on the longest and a longer one, and on the drawn ones, each with all
// the room and with room for two legs; prints what was compared, and every difference.
pub(crate) fn compare_sheets(rt: &(impl Print + AllocGlobal)) -> io::Result<()> {
    let heap = rt.alloc();
    let mut table = vec![in heap; Leg::default(); usize::from(MOST_LEGS)]?;
    let mut small = [Leg::default(); 2];
    let mut readings = Readings {
        compared: 0,
        sound: 0,
        refused: [0; 7],
        differences: Vec::new(heap),
    };
    for (name, sheet) in named_sheets() {
        print_reading(rt, name, readings.compare(0, sheet, &mut table)?)?;
    }
    let mut long = Vec::from_slice(heap, b"network,1\n")?;
    long.extend_from_slice(&b"leg,0,0,0,0,0,0\n".repeat(heap, 4096)?)?;
    print_reading(rt, "4096 legs", readings.compare(0, &long, &mut table)?)?;
    long.extend_from_slice(b"leg,0,0,0,0,0,0\n")?;
    print_reading(rt, "4097 legs", readings.compare(0, &long, &mut table)?)?;
    for seed in 1..=DRAWN {
        let sheet = drawn_sheet(seed, heap)?;
        readings.compare(seed, &sheet, &mut table)?;
        readings.compare(seed, &sheet, &mut small)?;
    }
    readings.print(rt)
}
