// That the core runs the stepper's routine late, and the call that performs any list of calls.
#![tactic(auto)]

ghost use Rattle.refinement.specs.CallLists.{CallsRunLate};
ghost use Rattle.refinement.specs.Lateness.{CoreRunsLate};

pub mod perform;

/// After any number of clocks from reset the core has handed out the stepper's events, in its order, each in the clock
/// that the clock law gives; its registers, flags and data memory are the stepper's.
pub fn core_runs_late()
    ensures { CoreRunsLate }
{}

/// Does nothing. Its contract says what a client can rely on that makes its own calls, in any order, on a core from reset:
/// the events handed out are the stepper's first ones, each in the clock that the clock law gives; registers, flags and
/// data memory are the stepper's.
pub fn calls_run_late()
    ensures { CallsRunLate }
{}
