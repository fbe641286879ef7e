// The reader of a sheet.
ghost use Rattle.std.specs.Prelude.{◌≡◌};
ghost use Rattle.sheet.specs.Start.{fresh};

mod reading;

// Reads a sheet that it is lent, line by line. `place` is the byte place of the line that comes next and `line` its
// number, counted from 1; `loaded` tells whether the last load was accepted.
#[derive(Drop)]
pub struct Reader<'a> {
    sheet: &'a [u8],
    place: usize,
    line: u64,
    loaded: bool,
}

impl<'a> Reader<'a> {
    // A reader at the start of a sheet, of which nothing is loaded.
    pub fn new(sheet: &'a [u8]) -> Reader<'a>
        ensures { fresh sheet.now result }
    {
        Reader {
            sheet,
            place: 0,
            line: 1,
            loaded: false,
        }
    }

    // The byte place of the line that comes next.
    pub fn place(&self) -> usize
        ensures { result ≡ self.now.place }
    {
        self.place
    }

    // The number of the line that comes next, counted from 1.
    pub fn line(&self) -> u64
        ensures { result ≡ self.now.line }
    {
        self.line
    }
}
