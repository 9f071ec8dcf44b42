#![tactic(auto)]
// The program `ack`: it answers an interchange with the 997.
use exchange::Acknowledgment;

fn main(rt: HostRuntime) {
    program::run(
        rt.stdin(),
        rt.stdout(),
        rt.stderr(),
        Acknowledgment::Functional,
        b"ack",
    );
}
