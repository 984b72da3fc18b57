// Every worked draft (docs/REQUIREMENTS.md, section 10) through the public functions, and the cases beyond them: one line each. What it must write was worked out apart from this program. Results are
// taken as C gets them, since a line has the zeros of a refusal too.
#![tactic(auto)]

mod cases;
mod conversions;
mod drafts;
mod runs;
mod say;
mod state_sets;
mod tables;
mod values;

fn main() {
    cases::p_converted();
    cases::others_converted();
    cases::p_run();
    cases::others_run();
    cases::chains_run();
    cases::productive_states();
    cases::files_read_and_written();
    cases::files_refused();
    cases::texts_printed();
    cases::nodes_made();
    cases::p_checked();
    cases::changes_checked();
    cases::sizes_measured();
    cases::p_listed();
    cases::sets_told()
}
