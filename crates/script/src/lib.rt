// Scripts: their lines, by their forms.
#![tactic(auto)]

pub mod lines;
pub mod reading;
