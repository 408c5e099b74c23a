//! The store's meaning: its state, what each line makes of it, and what it may read.
//!
//! A state is the log's changes, the tables in their levels, and the merge that runs; the map that it is follows
//! (`View`). A change sets an entry or deletes a range of keys; no command deletes a range yet. `Changes`, `Merges` and `Tends` say what a flush, a merge and a compaction make of it, `Steps` and `Script`
//! what lines are answered, `Bounds` how many blocks a read may cost. `Play` computes one of the runs that `Script`
//! allows. The functions here do nothing: they carry the laws of these definitions, and examples of them. An example
//! computes, so it costs as much as its lists are long. Which state a device holds is said by `image_model`; a store
//! that runs is not here.
//!
//! ```text
//! -- the replies, and the state after them
//! played filter_bytes (new_state settings 512) (Put key value ∷ Flush ∷ Get key ∷ [])
//! ```
#![tactic(auto)]

pub mod counted;
pub mod deleted_ranges;
pub mod examples;
mod laws;
pub mod long_values;

pub use laws::{
    answers_go_on, any_cause, causes_have_replies, change_laws, changes_keep_sound, choice_laws,
    compaction_keeps_sound, device_is_kept, estimate_is_enough, faults_are_met, faults_have_causes,
    gets_are_bounded, held_is_searched, install_laws, jobs_end, jobs_keep_sound, keys_are_a_list,
    limits_are_kept, lines_keep_sound, merge_laws, new_is_sound, no_job_is_left, nothing_is_read,
    others_have_no_slice, output_laws, places_are_free, play_laws, refusal_laws,
    replies_have_causes, resets_keep_sound, scripts_go_on, scripts_keep_sound, scripts_that_end,
    scripts_to_last, slices_are_allowed, slices_have_reasons, slices_have_replies,
    slices_keep_sound, slices_read_blocks, slices_write, stepped_are_deleted, steps_are_answers,
    view_laws, without_ranges,
};
