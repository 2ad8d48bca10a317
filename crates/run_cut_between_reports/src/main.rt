// The batch program on a file that stops between two reports of a batch.
#![tactic(auto)]

fn main(rt: HostRuntime) {
    batchrun::run_file(&rt);
}
