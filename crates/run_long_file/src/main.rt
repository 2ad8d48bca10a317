// The batch program on a file longer than its buffers: batches and lines lie across their ends.
#![tactic(auto)]

fn main(rt: HostRuntime) {
    batchrun::run_file(&rt);
}
