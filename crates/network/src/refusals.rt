// Why a call is refused, and why a search is stopped.
ghost use Rattle.std.specs.Prelude.{◌≡◌};
ghost use Rattle.network.specs.Refusals.{line_of, number_of, place_of, stop_number_of};

// What is at fault: a line of the sheet, counted from 1, or a leg by its number.
#[derive(Clone, Copy, PartialEq, Eq, Debug)]
pub enum Place {
    Line(u64),
    Leg(u16),
}

// Why a call is refused, with what is at fault where something is.
#[derive(Clone, Copy, PartialEq, Eq, Debug)]
pub enum Refusal {
    // The line has no end byte.
    Unended(u64),
    // Its word is not one that a sheet has.
    UnknownWord(u64),
    // A line of its kind may not stand there.
    OutOfPlace(u64),
    // It has too few or too many fields.
    FieldCount(u64),
    // A field is not a number of the stated form.
    FieldForm(u64),
    // A field is outside its range.
    FieldRange(u64),
    // There is no room for its leg.
    TableFull(u64),
    // The number of sites, the number of legs or the limit is outside its range, or the leg table is too short.
    Size,
    // A leg of the table has a field outside its range.
    LegRange(u16),
    // The leg to write has a field outside its range.
    WrittenLegRange,
    // A site of the question is not in the network.
    Site,
    // A table is too short or too long, or the queue's capacity is 0.
    Room,
    // The estimate at the goal is not 0 and 0.
    GoalEstimate,
    // The estimates at the two ends of a leg break a rule.
    LegEstimate(u16),
    // The search is not open.
    NotOpen,
    // The search has found nothing.
    NotFound,
    // A number of the labels' chain leads outside its table.
    Outside,
    // The buffer is too short.
    BufferShort,
}

// Why a step stops the search, with the number that stands for it in every format.
#[derive(Clone, Copy, PartialEq, Eq, Debug)]
pub enum Stop {
    // A number leads outside its table.
    Outside = 15,
    // All label records are used, and one more is due.
    LabelsUsed = 16,
    // The queue holds its capacity, and one more entry is due.
    QueueFull = 17,
}

impl Refusal {
    // The number that stands for it in every format.
    pub fn number(&self) -> u8
        ensures { result ≡ number_of self.now }
    {
        match self {
            Refusal::Unended(_) => 1,
            Refusal::UnknownWord(_) => 2,
            Refusal::OutOfPlace(_) => 3,
            Refusal::FieldCount(_) => 4,
            Refusal::FieldForm(_) => 5,
            Refusal::FieldRange(_) => 6,
            Refusal::TableFull(_) => 7,
            Refusal::Size => 8,
            Refusal::LegRange(_) | Refusal::WrittenLegRange => 9,
            Refusal::Site => 10,
            Refusal::Room => 11,
            Refusal::GoalEstimate | Refusal::LegEstimate(_) => 12,
            Refusal::NotOpen => 13,
            Refusal::NotFound => 14,
            Refusal::Outside => 15,
            Refusal::BufferShort => 18,
        }
    }

    // The line or the leg at fault, where it carries one.
    pub fn place(&self) -> Option<Place>
        ensures { result ≡ place_of self.now }
    {
        match self {
            Refusal::Unended(line)
            | Refusal::UnknownWord(line)
            | Refusal::OutOfPlace(line)
            | Refusal::FieldCount(line)
            | Refusal::FieldForm(line)
            | Refusal::FieldRange(line)
            | Refusal::TableFull(line) => Some(Place::Line(*line)),
            Refusal::LegRange(leg) | Refusal::LegEstimate(leg) => Some(Place::Leg(*leg)),
            _ => None,
        }
    }

    // The line at fault, where one is.
    pub fn line(&self) -> Option<u64>
        ensures { result ≡ line_of self.now }
    {
        match self.place()? {
            Place::Line(line) => Some(line),
            Place::Leg(_) => None,
        }
    }
}

impl Stop {
    // The number that stands for it in every format.
    pub fn number(&self) -> u8
        ensures { result ≡ stop_number_of self.now }
    {
        *self as u8
    }
}
