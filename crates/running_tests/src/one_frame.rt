//! Phases that have but one order.
use io_edges::OpenGate;
use std::alloc::AllocError;
use test_frames::UDP_FRAME;
use test_sessions::{Capture, Fails, Inputs, run_with};
use testpmd_shell::Status;

const SIXTEEN_WORKERS: [&str; 4] = [
    "--cmdline-file=script",
    "--rx-pcap=capture",
    "--rxq=2",
    "--nb-cores=16",
];

const ONE_FRAME: Inputs<'static> = Inputs {
    words: &SIXTEEN_WORKERS,
    script: b"flow create 0 ingress pattern eth / end actions queue index 1 / end\nstart\nstop\n",
    capture: Capture::Of(&[(&UDP_FRAME, &[])]),
    fails: Fails::Nowhere,
};

#[test]
fn one_frame_passes_by_worker_1_of_sixteen(rt: HostRuntime) -> Result<(), AllocError> {
    let outcome = run_with(&rt, &OpenGate, rt.alloc(), &ONE_FRAME)?;
    assert!(rt; outcome.status == Status::Done);
    let told = "shell 1.1: Flow rule #0 created
shell 2.1: Packet forwarding started
worker1 #1: queue 1 mark - hash - path 0
shell 3.1: Packet forwarding stopped: received 1 dropped 0 queues 0,1
total received 1 dropped 0 queues 0,1
";
    assert!(rt; outcome.written.as_slice() == told.as_bytes());
    Ok(())
}
