// The place of a byte in a text, the fields of a line, and the numbers in them.
ghost use Rattle.std.specs.Prelude.{◌≡◌, ◌==◌, length, position, Ok};
ghost use Rattle.std.specs.Result.{result_and};
ghost use Rattle.sheet.specs.Numbers.{numbers_of};
ghost use Rattle.sheet.specs.Text.{fields, value};

// What is wrong with a line's fields.
#[derive(Clone, Copy, PartialEq)]
pub(crate) enum Fault {
    Count,
    Form,
}

// The place of the first `byte`.
pub(crate) fn find(text: &[u8], byte: u8) -> Option<usize>
    ensures { result ≡ position (λ c. c == byte) text.now }
{
    text.iter().position(|b| *b == byte)
}

// The value of a number: 1 to 10 digits, with no leading 0 unless it is `0`.
pub(crate) fn number(text: &[u8]) -> Option<u64>
    ensures { result ≡ value text.now }
{
    if text.len() > 10 || matches!(text, [] | [b'0', _, ..]) {
        return None;
    }
    let mut n = 0;
    for b in text {
        n = 10 * n + u64::from(char::from(*b).to_digit(10)?);
    }
    Some(n)
}

// Reads the numbers of the fields, which stand after the commas, into `values`: there has to be a field for each.
fn read_numbers(rest: &[u8], values: &mut [u64]) -> Result<(), Fault>
    ensures long { length values.new ≡ length values.old }
    ensures answer { result_and result (Ok values.new) ≡ numbers_of (length values.old) (fields rest.now) }
{
    if rest.iter().filter(|b| **b == b',').count() != values.len() {
        return Err(Fault::Count);
    }
    for (i, field) in rest.split(|b| *b == b',').skip(1).enumerate() {
        values[i] = number(field).ok_or(Fault::Form)?;
    }
    Ok(())
}

// The numbers of `N` fields.
pub(crate) fn numbers<const N: usize>(rest: &[u8]) -> Result<[u64; N], Fault>
    ensures { result ≡ numbers_of N (fields rest.now) }
{
    let mut values = [0; N];
    read_numbers(rest, &mut values)?;
    Ok(values)
}
