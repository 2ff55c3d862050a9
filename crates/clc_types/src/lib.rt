//! Typed trees, what the typing rules of OpenCL C look at as this project takes them, and the rules as definitions.
//! In `specs/` what is named `Internal..` says what the code of `clc_walk` computes step by step: it is no part of the rules, and no promise of
//! `check` names it.
#![tactic(auto)]

mod forms;
mod scope;
mod type_rule;
mod typed;

pub use forms::{Argument, Fault, Form, Home, Kind, Named, Place, Shape, Signature, Sofar, Space};
pub use scope::{Names, Scope, State};
pub use type_rule::TypeRule;
pub use typed::{Builtin, Node, TExpr, TFunction, TStmt, Ty, TypeFault, Typed, Var};
