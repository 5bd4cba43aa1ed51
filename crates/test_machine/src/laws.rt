// The laws of the libraries.
use displaced_fix::copied_step_is_home;
use hart_machine::copy_is_step_at_home;
use reg_slices::registers_alone;
use rv_decode::one_row_fits;
use step_over::{
    one_run_or_none, one_step_or_none, other_marks_show_the_same, run_is_a_plain_step,
    slots_are_words,
};

/// Calls each law, which can be called without a premise.
pub fn call_all() {
    one_row_fits();
    copied_step_is_home();
    copy_is_step_at_home();
    registers_alone();
    one_run_or_none();
    one_step_or_none();
    other_marks_show_the_same();
    run_is_a_plain_step();
    slots_are_words();
}
