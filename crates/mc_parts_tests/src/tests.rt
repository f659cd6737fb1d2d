//! Worked cases of small values, the stream reader, what replies show, classes, and what is asked for a command.

mod classes;
mod drawn;
mod reading;
mod rendering;
mod routes;
mod values;
