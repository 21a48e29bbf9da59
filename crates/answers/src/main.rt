// Runs the cases that standard input lists and writes each with its answer.
#![tactic(auto)]

fn main() {
    cases::run();
}
