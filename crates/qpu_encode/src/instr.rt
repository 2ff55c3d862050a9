//! A form that is in the profile.

use crate::form::Form;
use std::marker::Model;

/// An instruction: a form in the profile.
#[derive(Clone, Copy, Debug, PartialEq, Eq)]
pub struct Instr {
    pub form: Form,
}

impl Model for Instr {
    ghost use Rattle.std.specs.Prelude.{◌≡◌, true};
    ghost use Rattle.qpu_encode.specs.declared.form.Form.{Form};
    ghost use Rattle.qpu_encode.specs.WordFields.{is_in_profile};

    ghost Value = { Form };

    ghost view = { λ i. i.form };

    ghost invariant = { λ i. is_in_profile i.form ≡ true };

    ghost inverse = { λ f. record { form = f } };
}
