// The batch program on a file that stops within a report, one byte short.
#![tactic(auto)]

fn main(rt: HostRuntime) {
    batchrun::run_file(&rt);
}
