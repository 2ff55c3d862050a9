//! The laws, which are calls that do nothing.

use q_lane::Lanes;

/// Calls each law of the five crates.
pub fn call_each() {
    q_lane::law_length(&Lanes::<1> { words: [0] });
    q_lane::law_words();
    q_lane::law_order();
    q_lane::law_narrow();
    q_lane::law_choice();
    q_lane::law_rotations();
    qpu_encode::law_words();
    qpu_encode::law_fields();
    qpu_disasm::law_lines_differ();
    vpm_words::law_rules();
    vpm_words::law_elements();
    vpm_words::law_moves();
    vpm_words::law_cases();
    qpu_rules::law_accs();
    qpu_rules::law_early();
}
