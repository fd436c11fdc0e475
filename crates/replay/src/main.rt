// The program replay prints an answer for each line of a script, and the totals at its end.
#![tactic(auto)]

use runner::run_program;

fn main(rt: HostRuntime) {
    run_program(&rt, b"replay", false);
}
