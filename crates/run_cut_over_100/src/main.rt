// The batch program on a file that stops within a batch of 101 reports: a cut, not refusal 5.
#![tactic(auto)]

fn main(rt: HostRuntime) {
    batchrun::run_file(&rt);
}
