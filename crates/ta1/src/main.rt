#![tactic(auto)]
// The program `ta1`: it answers an interchange with the TA1.
use exchange::Acknowledgment;

fn main(rt: HostRuntime) {
    program::run(
        rt.stdin(),
        rt.stdout(),
        rt.stderr(),
        Acknowledgment::Interchange,
        b"ta1",
    );
}
