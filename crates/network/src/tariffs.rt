// What a tariff is, and two of them. An engineer plugs in another by an impl of `Tariff`.
ghost use Rattle.std.specs.Prelude.{◌≡◌};
ghost use Rattle.network.specs.Tariffs.{Terms, Lawful, total_fee, worst_grade};
ghost use Rattle.std.proofs.Common.{rules};

// Prices legs and joins costs. What it means is `terms`, and by its law the terms are lawful, so that generic code is
// proved once for every tariff. Both questions are answered by that meaning and change nothing.
pub trait Tariff {
    ghost terms: { Self → Terms };

    // The price of a leg.
    fn price(&self, fee: u32, grade: u8) -> u64
        ensures { result ≡ (terms self.now).price fee grade };

    // Two costs joined, `a` before `b`.
    fn join(&self, a: u64, b: u64) -> u64
        ensures { result ≡ (terms self.now).join a b };

    // What every tariff proves.
    ghost lawful: { (tariff : Self) → Lawful (terms tariff) };
}

// Adds the fees; the sum stays at the largest number of 64 bits once there.
#[derive(Clone, Copy, Debug)]
pub struct TotalFee;

impl Tariff for TotalFee {
    ghost terms = { λ _. total_fee };

    ghost lawful = { Prim.search rules };

    fn price(&self, fee: u32, _grade: u8) -> u64 {
        u64::from(fee)
    }

    fn join(&self, a: u64, b: u64) -> u64 {
        a.saturating_add(b)
    }
}

// Takes the worst grade.
#[derive(Clone, Copy, Debug)]
pub struct WorstGrade;

impl Tariff for WorstGrade {
    ghost terms = { λ _. worst_grade };

    ghost lawful = { Prim.search rules };

    fn price(&self, _fee: u32, grade: u8) -> u64 {
        u64::from(grade)
    }

    fn join(&self, a: u64, b: u64) -> u64 {
        a.max(b)
    }
}
