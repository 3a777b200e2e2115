// What awaqlla says in words: its help, what a refusal means, and what follows a verdict on standard error.
// A function that says what was refused answers the exit status of a refusal.
#![tactic(auto)]

mod answer;
mod help;
mod refusal;

pub use answer::{
    damaged, damaged_of, full_merge, is_refusal, print_refusal, print_refusals, refused,
    refused_log, refused_merge, refused_torn, torn,
};
pub use help::print_help;
pub use refusal::{put_refusal, words_of};
