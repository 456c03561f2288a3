//! A gate between two threads: an asker puts a question, a server takes it and answers it, and so on,
//! turn by turn. Neither shares memory with the other, since a question and an answer move.
#![tactic(auto)]

mod asker;
mod law;
mod phase;
mod server;
mod steps;
mod turns;
mod view;
mod waiting;

pub use asker::{Asker, Closer, pair};
pub use law::server_follows;
pub use server::Server;
pub use turns::Turns;
pub use view::Stage;
