//! The outside of the runtime: sources, sinks, clocks and gates, as traits with a written meaning, in memory and over std.
//!
//! Code above is generic in these traits, so it is proved once for every device. A device counts its faults, and a
//! call fails only where that count rose. What a device stands for (the bytes still to come, the bytes written, the
//! readings so far) it may tell or keep to itself: each clause on it holds where it is told.
#![tactic(auto)]

mod calm_sink;
mod calm_source;
mod clock;
mod counting_gate;
mod failed;
mod fault_plan;
mod free_gate;
mod gate;
mod gathered;
mod link;
mod listener;
mod mem_clock;
mod mem_listener;
mod mem_sink;
mod mem_source;
mod never_starts;
mod post;
mod post_sink;
mod sink;
mod source;
mod spawner;
mod std_sink;
mod std_source;
mod system_clock;
mod tcp_door;
mod tcp_source;
mod thread_spawner;
mod writing;

pub use calm_sink::CalmSink;
pub use calm_source::CalmSource;
pub use clock::Clock;
pub use counting_gate::CountingGate;
pub use failed::Failed;
pub use fault_plan::FaultPlan;
pub use free_gate::FreeGate;
pub use gate::Gate;
pub use link::Link;
pub use listener::Listener;
pub use mem_clock::MemClock;
pub use mem_listener::{MemLink, MemListener};
pub use mem_sink::MemSink;
pub use mem_source::MemSource;
pub use never_starts::NeverStarts;
pub use post::Post;
pub use post_sink::PostSink;
pub use sink::Sink;
pub use source::Source;
pub use spawner::Spawner;
pub use std_sink::StdSink;
pub use std_source::StdSource;
pub use system_clock::SystemClock;
pub use tcp_door::{TcpDoor, TcpLink};
pub use tcp_source::TcpSource;
pub use thread_spawner::ThreadSpawner;
pub use writing::write_all;
