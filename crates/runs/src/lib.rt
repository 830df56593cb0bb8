// The register as a value, and the theorem over all its runs. There is no code here beyond the functions that carry the
// theorems.
#![tactic(auto)]

ghost use Rattle.runs.specs.Examples.{RegisterExamples};
ghost use Rattle.runs.specs.Setups.{SearchesAgree};
ghost use Rattle.runs.specs.Runs.{RunsByCalls, EveryRunIsRight, RefusalsChangeNothing};

// What class numbers, answers and shown worlds mean, in every run.
pub fn every_run_is_right()
    ensures { EveryRunIsRight }
{}

// A call that is refused changes nothing.
pub fn refusals_change_nothing()
    ensures { RefusalsChangeNothing }
{}

// The searches of a register are those that the theorems about the search speak of.
pub fn searches_agree()
    ensures { SearchesAgree }
{}

// The worked examples hold of the definitions.
pub fn register_examples_hold()
    ensures { RegisterExamples }
{}

// The run that calls make is a run, and every run is that of its calls.
pub fn runs_by_calls()
    ensures { RunsByCalls }
{}
