// A leg as a line of text.
ghost use Rattle.std.specs.Prelude.{◌≡◌, ℕ, ◌+◌, ◌≤◌, length, take, Ok, decimal};
ghost use Rattle.sheet.specs.Theorems.{WrittenLegReadsBack, WrittenLegsReadBack};
ghost use Rattle.sheet.specs.Writing.{filled, laid, leg_numbers, listed, written};

use network::legs::Leg;
use network::limits::MOST_SITES;
use network::refusals::Refusal;

// How many digits a number has.
fn digits(n: u64) -> usize
    ensures value { result ≡ length (decimal n) }
    ensures within { result ≤ 20 }
{
    n.checked_ilog10().unwrap_or(0) as usize + 1
}

// Puts a number's digits at the buffer's start, and answers how many there are.
fn put_number(buffer: &mut [u8], n: u64) -> usize
    requires { length (decimal n) ≤ length buffer.old }
    ensures value { result ≡ length (decimal n) }
    ensures after { buffer.new ≡ laid (decimal n) 0 buffer.old }
{
    let place = if n < 10 {
        0
    } else {
        put_number(buffer, n / 10)
    };
    buffer[place] = b'0' + (n % 10) as u8;
    place + 1
}

// How many bytes the numbers take, each after a comma.
fn listed_len(numbers: &[u64; 6]) -> usize
    ensures value { result ≡ length (listed numbers.now) }
    ensures within { result ≤ 126 }
{
    numbers.iter().map(|n| 1 + digits(*n)).sum()
}

// Puts numbers at the buffer's start, each after a comma.
fn put_listed(buffer: &mut [u8], numbers: &[u64; 6])
    requires { length (listed numbers.now) ≤ length buffer.old }
    ensures { buffer.new ≡ laid (listed numbers.now) 0 buffer.old }
{
    let mut place = 0;
    for n in numbers {
        buffer[place] = b',';
        place += 1 + put_number(&mut buffer[place + 1..], *n);
    }
}

// The leg's numbers, in the order of its line.
fn numbers(leg: &Leg) -> [u64; 6]
    ensures { result ≡ leg_numbers leg.now }
{
    [
        u64::from(leg.tail),
        u64::from(leg.head),
        u64::from(leg.fee),
        u64::from(leg.grade),
        u64::from(leg.stated),
        u64::from(leg.medium),
    ]
}

// Puts the leg's line at the buffer's start, leaves the rest of the buffer, and answers the line's length, its end byte
// included. Refused, the buffer stays as it was: the leg's ranges are tested first, its sites against 1,023, and then the
// buffer's room. Read back below a line `network,1024`, what was written is the leg.
pub fn write_leg(leg: &Leg, buffer: &mut [u8]) -> Result<usize, Refusal>
    ensures answer { result ≡ written (length buffer.old) leg.now }
    ensures after { buffer.new ≡ filled result leg.now buffer.old }
    ensures reads_back { (n : ℕ) → result ≡ Ok n → WrittenLegReadsBack (take n buffer.new) leg.now }
{
    if !leg.is_in_range(MOST_SITES) {
        return Err(Refusal::WrittenLegRange);
    }
    let numbers = numbers(leg);
    let end = 3 + listed_len(&numbers);
    if end >= buffer.len() {
        return Err(Refusal::BufferShort);
    }
    buffer[..3].copy_from_slice(b"leg");
    put_listed(&mut buffer[3..], &numbers);
    buffer[end] = b'\n';
    Ok(end + 1)
}

// Legs in range, written one after another below a line `network,1024`, load as themselves.
#[tactic(auto, using(crate::proofs::Returning::reads_back))]
pub fn written_legs_read_back() -> u8
    ensures { WrittenLegsReadBack }
{
    0
}
