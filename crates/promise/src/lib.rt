// What is promised of any list of calls on a worksheet.
#![tactic(auto)]

pub mod calls;
pub mod conduct;
pub mod theorems;
