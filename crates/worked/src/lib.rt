// The worked runs of the rulebook: what the rules force each call of a run to answer.
#![tactic(auto)]

ghost use Rattle.worked.specs.Statement.{WorkedRuns};

#[cfg(test)]
mod player;
#[cfg(test)]
mod runs;
#[cfg(test)]
mod tests;
#[cfg(test)]
mod turn;

// Every run has the answers that the rulebook gives it, and can have no other.
pub fn worked_runs()
    ensures { WorkedRuns }
{}
