// Runs a file of batches: reads standard input and prints what came of it.
#![tactic(auto)]

fn main(rt: HostRuntime) {
    batchrun::run_file(&rt);
}
