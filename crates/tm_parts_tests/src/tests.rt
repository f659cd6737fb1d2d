//! Worked cases of devices, kinds, batches, slots on numbers, latches, objects, a trustee's rules, and waiting.

mod batches;
mod devices;
mod kinds;
mod latches;
mod machine;
mod objects;
mod reference;
mod waiting;
