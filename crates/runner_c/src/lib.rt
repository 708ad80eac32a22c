// The schedule runner for C: the runner's entry under its name there. It stands twice, since a crate is a library or a static
// library, and none can stand on a static one.
#![tactic(auto)]

ghost use Rattle.std.specs.Prelude.{◌≡◌, ◌%◌, ◌≤◌, length};
ghost use Rattle.filters.specs.contracts.small.SmallFilter.TheImpl.{ghosts as small};
ghost use Rattle.runner.specs.Law.{Law};
ghost use Rattle.runner.specs.Runs.{Runs};

// C is answered one number. Plays the schedule in `input` and prints into `output`. The answer is the number of bytes written × 16, plus 10 where the next line does not fit.
#[unsafe(no_mangle)]
pub extern "C" fn dohvalin_run(input: &[u8], output: &mut [u8]) -> u64
    ensures runs { Runs small input.now output.old output.new result }
    ensures suffices { 65536 ≤ length output.old → result % 16 ≡ 0 }
    ensures law { Law small input.now output.old output.new result }
{
    runner::run::dohvalin_run(input, output)
}
