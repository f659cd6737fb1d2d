//! Small runs whose answers the rules give.

mod meeting;
mod sharing;
mod slots;
