// A second gateway, which reads a plan's text by itself: schedules are replayed in it, beside the analyser and its definitions. It uses nothing of them.
#![tactic(auto)]

pub mod gateway;
pub mod lines;
pub mod printed;
pub mod sizes;
mod steps;
pub mod stuck;
mod thread;
