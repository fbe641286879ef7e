// What is proved of the reference figures, as the contract of a function that does nothing.
ghost use Rattle.figures.specs.Figures.{EveryCaseComesOut};

// Every case of the table comes out as the table has it.
#[tactic(auto, using(crate::proofs::Cases::every_case_comes_out))]
pub fn every_case_comes_out() -> u8
    ensures { EveryCaseComesOut }
{
    0
}
