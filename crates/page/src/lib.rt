// The page that a report is written on, and the lines and bytes of the input that it shows.
#![tactic(auto)]

pub mod place;
pub mod shown;
pub mod text;
