// How the lines of a sheet are read.
ghost use Rattle.std.specs.Prelude.{◌≡◌, true, length, IfOk, IfSome};
ghost use Rattle.sheet.specs.Calls.{answer_of, fronted, line_shown, legs_ahead, load_of, network_after, next_of, moved, reader_after, rows_left};
ghost use Rattle.sheet.specs.Words.{line_kind};
ghost use Rattle.sheet.specs.Sheets.{line_ahead, leg_stated, one_more, sites_stated, plan_stated};

use crate::entries::*;
use crate::reader::Reader;
use crate::text::find;
use crate::words::{Line, kind};
use network::legs::*;
use network::limits::MOST_LEGS;
use network::plans::Plan;
use network::refusals::Refusal;

// A line with its number, and the place after it.
#[derive(Clone, Copy)]
struct Ahead<'a> {
    line: Line<'a>,
    number: u64,
    after: usize,
}

impl Ahead<'_> {
    // The number of sites that the first line states.
    fn sites(self) -> Result<u16, Refusal>
        ensures { result ≡ sites_stated self.entry.number (line_kind self.entry.line) }
    {
        let line = self.number;
        match self.line {
            Line::Network(rest) => Entry { rest, line }.sites(),
            _ => Err(Refusal::OutOfPlace(line)),
        }
    }

    // The leg that a later line states; none where the plans begin.
    fn leg(self, sites: u16) -> Result<Option<Leg>, Refusal>
        ensures { result ≡ leg_stated sites self.entry.number true (line_kind self.entry.line) }
    {
        let line = self.number;
        match self.line {
            Line::Network(_) => Err(Refusal::OutOfPlace(line)),
            Line::Plan(_) => Ok(None),
            Line::Leg(rest) => Entry { rest, line }.leg(sites).map(Some),
        }
    }

    // The plan that a line states.
    fn plan(self, sites: u16) -> Result<Plan, Refusal>
        ensures { result ≡ plan_stated true sites self.entry.number (line_kind self.entry.line) }
    {
        let line = self.number;
        match self.line {
            Line::Plan(rest) => Entry { rest, line }.plan(sites),
            _ => Err(Refusal::OutOfPlace(line)),
        }
    }
}

impl<'a> Reader<'a> {
    // The line at the reader's place by its kind; none at the end of the sheet.
    fn ahead(&self) -> Result<Option<Ahead<'a>>, Refusal>
        ensures shown { line_shown result ≡ line_ahead self.now.line self.now.place (rows_left self.now) }
        ensures numbered { IfOk result (λ o. IfSome o (λ a. a.number ≡ self.now.line)) }
    {
        if self.place >= self.sheet.len() {
            return Ok(None);
        }
        let left = &self.sheet[self.place..];
        let end = find(left, b'\n').ok_or(Refusal::Unended(self.line))?;
        let line = kind(&left[..end]).ok_or(Refusal::UnknownWord(self.line))?;
        Ok(Some(Ahead {
            line,
            number: self.line,
            after: self.place + end + 1,
        }))
    }

    // Goes on to the next line, which begins at the place `after`.
    fn go_on(&mut self, after: usize)
        ensures { self.new ≡ moved self.old after (one_more self.old.line) }
    {
        self.place = after;
        self.line = self.line.saturating_add(1);
    }

    // Reads legs into the front of the table, up to a plan line or the end of the sheet.
    fn read_legs(&mut self, sites: u16, table: &mut [Leg]) -> Result<Network, Refusal>
        ensures answer { result ≡ (legs_ahead sites (length table.old) self.old).outcome }
        ensures reader { self.new ≡ moved self.old (legs_ahead sites (length table.old) self.old).at (legs_ahead sites (length table.old) self.old).line }
        ensures legs { table.new ≡ fronted (legs_ahead sites (length table.old) self.old).legs table.old }
    {
        let room = table.len().min(usize::from(MOST_LEGS));
        let mut count = 0;
        while let Some(ahead) = self.ahead()? {
            let Some(leg) = ahead.leg(sites)? else {
                break;
            };
            if count == room {
                return Err(Refusal::TableFull(ahead.number));
            }
            table[count] = leg;
            count += 1;
            self.go_on(ahead.after);
        }
        Ok(Network {
            sites,
            legs: count as u16,
        })
    }

    // Reads the network line and the legs, from the start of the sheet up to the first ended plan line or the end. The legs
    // go into the front of the table. Refused, the legs of the lines before stand in the table, the network stays as it was,
    // and the reader stays at the line at fault.
    pub fn load(&mut self, network: &mut Network, table: &mut [Leg]) -> Result<(), Refusal>
        ensures answer { result ≡ answer_of (load_of table.old self.old) }
        ensures network { network.new ≡ network_after (load_of table.old self.old) network.old }
        ensures legs { table.new ≡ fronted (load_of table.old self.old).legs table.old }
        ensures reader { self.new ≡ reader_after (load_of table.old self.old) self.old }
    {
        self.place = 0;
        self.line = 1;
        self.loaded = false;
        let first = self.ahead()?.ok_or(Refusal::OutOfPlace(1))?;
        let sites = first.sites()?;
        self.go_on(first.after);
        *network = self.read_legs(sites, table)?;
        self.loaded = true;
        Ok(())
    }

    // Reads the next plan, or none at the end of the sheet. Its sites are tested against the network. Refused, the reader
    // stays where it was.
    pub fn next(&mut self, network: &Network) -> Result<Option<Plan>, Refusal>
        ensures answer { result ≡ (next_of network.now.sites self.old).answer }
        ensures reader { self.new ≡ moved self.old (next_of network.now.sites self.old).at (next_of network.now.sites self.old).line }
    {
        let ahead = self.ahead()?;
        if !self.loaded {
            return Err(Refusal::OutOfPlace(self.line));
        }
        let Some(ahead) = ahead else {
            return Ok(None);
        };
        let plan = ahead.plan(network.sites)?;
        self.go_on(ahead.after);
        Ok(Some(plan))
    }
}
