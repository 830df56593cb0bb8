// Hierarchies of roles: the told inclusions followed at each question, closure rows worked out at the start, and a layer
// with one more role above all others.
#![tactic(auto)]

ghost use Rattle.roles.specs.Closure.{ClosureDecides};

pub mod asked;
mod reach;
pub mod rows;
pub mod told;
pub mod universal;

// For pairs of roles, the closure that the contracts cite is: the same role, or a chain of told inclusions.
pub fn closure_decided()
    ensures { ClosureDecides }
{}
