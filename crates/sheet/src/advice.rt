// What a refusal tells whoever typed a sheet.
use network::refusals::Refusal;

// What is wrong, in a sentence. The program writes it to standard error; no format rests on it.
pub fn advice(refusal: &Refusal) -> &'static str {
    match refusal {
        Refusal::Unended(_) =>
            "the line is cut off; every line, the last one too, must end with a line feed",
        Refusal::UnknownWord(_) =>
            "the line must begin with the word network, leg or plan, in small letters, then a comma",
        Refusal::OutOfPlace(_) => {
            "the line is missing or out of order; a sheet has one network line, which comes first, then all its legs, then all its plans"
        }
        Refusal::FieldCount(_) =>
            "the number of fields is wrong; network has 1 field after its word, leg has 6, plan has 4",
        Refusal::FieldForm(_) => {
            "a field is not a plain number; write 1 to 10 digits with no sign, space, point, leading 0 or carriage return"
        }
        Refusal::FieldRange(_) => {
            "a number is out of range; sites 1 to 1024 in a network and below that number elsewhere, fee to 1000000, grade to 255, delay to 100000, medium to 7, broker to 999, limit to 1000000"
        }
        Refusal::TableFull(_) => "there is one leg more than this program has room for",
        Refusal::Room => "the network has more sites than this program has room for",
        _ => "the sheet is not sound",
    }
}
