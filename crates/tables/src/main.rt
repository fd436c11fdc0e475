// The program tables prints an answer for each line of a script with all tables after it, and the totals at its end.
#![tactic(auto)]

use runner::run_program;

fn main(rt: HostRuntime) {
    run_program(&rt, b"tables", true);
}
