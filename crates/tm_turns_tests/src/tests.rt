//! Clients and trustees in turns on one thread.

mod adding;
mod building;
mod closing;
mod first_program;
mod launching;
