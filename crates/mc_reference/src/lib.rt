//! One class of the store by its definition, and no more: no index, and each operation looks at
//! every item. It is what tests compare the class of `mc_shard` with.
#![tactic(auto)]

mod deed;
mod plain;
mod rows;
mod run;

pub use plain::Plain;
