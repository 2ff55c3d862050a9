//! The laws of modules and launches. Each is proved, and takes no step when it is called.

use launch_file::{law_fit, law_launches, law_layout, law_lines, law_uniforms};
use vc4q_module::{law_bytes, law_spelling};

pub fn call_each() {
    law_spelling();
    law_bytes();
    law_lines();
    law_launches();
    law_layout();
    law_fit();
    law_uniforms();
}
