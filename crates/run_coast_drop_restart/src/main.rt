// The batch program on tracks that coast, are dropped and start again, with and without a line of their own.
#![tactic(auto)]

fn main(rt: HostRuntime) {
    batchrun::run_file(&rt);
}
