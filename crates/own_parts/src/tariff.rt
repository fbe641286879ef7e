// A tariff of one's own: a leg's fee, and a surcharge for its grade.
ghost use Rattle.std.proofs.Common.{rules};
ghost use Rattle.own_parts.specs.Parts.{fee_and_grade};

use network::tariffs::Tariff;

// What a step of the grade is worth, in units of the fee.
const PER_GRADE: u64 = 2;

// Adds the fees, and what the grades are worth.
#[derive(Clone, Copy)]
pub struct FeeAndGrade;

impl Tariff for FeeAndGrade {
    ghost terms = { λ _. fee_and_grade };

    ghost lawful = { Prim.search rules };

    fn price(&self, fee: u32, grade: u8) -> u64 {
        u64::from(fee) + PER_GRADE * u64::from(grade)
    }

    fn join(&self, a: u64, b: u64) -> u64 {
        a.saturating_add(b)
    }
}
