// The scope: up to eight variables that one short command reads together.
#![tactic(auto)]

mod setup;

pub use setup::set_up_status;

// The variables of the last accepted setup; a count of 0 says that there was none.
#[repr(C)]
#[derive(Clone, Copy)]
pub struct Scope {
    pub variables: variables_list::Variables,
}
