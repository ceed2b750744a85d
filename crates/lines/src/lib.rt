// The language of the program `dossier`: from a line to a call, or why it is none. No input and no output.
#![tactic(auto)]

pub mod calls;
pub mod forms;
pub mod whys;
