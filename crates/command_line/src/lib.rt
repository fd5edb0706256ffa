//! A line of words as the program and its scripts take it: what may stand in it, as `clap` reads
//! it, and what it asks for. `line` reads one; what is done then is for the crates above. So is a
//! list of depositors read, which a line may name.
#![tactic(auto)]

mod alone;
mod arguments;
mod moments;
mod numbers;
mod reading;
mod rosters;
mod services;
mod shows;
mod subcommands;
mod values;
mod words;

pub use reading::line;
pub use rosters::depositors;
pub use words::{
    BookAct, ClerkWords, Endpoint, LineFault, MOST_HOSTS, Opening, Place, Service, Show, Task,
    Words,
};
