//! Small runs whose answers the rules give.

mod threads;
mod turns;
