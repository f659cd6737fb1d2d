//! The slots between the clients and a trustee: the laws of their steps, and a machine that runs them on numbers.
#![tactic(auto)]

mod cell;
mod cells;
mod client_laws;
mod kind_laws;
mod laws;
mod log_laws;
mod machine;
mod step;

pub use client_laws::{
    answers_are_as_many, answers_fit, batches_leave_at_fronts, fronts_agree, logs_tell_holds,
    openings_give, tickets_come_first,
};
pub use kind_laws::{
    answer_keeps_good, batches_have_all_answers, batches_join, collect_keeps_good, first_is_good,
    growing_adds, legal_logs_join, publish_keeps_good, requests_are_numbered, see_keeps_good,
};
pub use laws::{
    SlotLog, answer_keeps_slots, collect_keeps_slots, first_slots_are_good, publish_keeps_slots,
    see_keeps_slots, steps_keep_slots,
};
pub use log_laws::{
    batches_are_promised, completions_are_of_launches, held_are_live, histories_tell_values,
    ids_never_return, launches_are_latched, longer_logs_add, reclaims_are_of_histories,
    replies_are_of_histories, resumes_are_of_histories, seen_logs_agree, states_are_sound,
};
pub use machine::Core;
pub use step::{Step, StepRefused};
