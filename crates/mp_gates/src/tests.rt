use crate::{Gate, MeetGate, OpenGate};
use std::thread::{Threads, join};

// The statements 2 of two sessions come, each on a thread of its own where two can be made.
fn come_by_two<R: Threads + Sync, G: Gate + Sync>(rt: &R, gate: &G) {
    join(rt, || gate.at(1, 1, 2), || gate.at(2, 2, 2));
}

// They come one after the other, and others before them.
fn come_in_turn<G: Gate>(gate: &G) {
    gate.at(1, 1, 1);
    gate.at(1, 2, 1);
    gate.at(1, 1, 2);
    gate.at(2, 2, 2);
}

#[test]
fn two_threads_meet(rt: HostRuntime) {
    let gate = MeetGate::new((1, 2), (2, 2));
    come_by_two(&rt, &gate);
    assert!(rt; !gate.ran_out());
}

#[test]
fn one_thread_meets_nobody(rt: HostRuntime) {
    let gate = MeetGate::new((1, 2), (2, 2));
    gate.at(1, 1, 1);
    assert!(rt; !gate.ran_out());
    come_in_turn(&gate);
    assert!(rt; gate.ran_out());
}

#[test]
fn an_open_gate_holds_nobody(rt: HostRuntime) {
    come_by_two(&rt, &OpenGate);
    come_in_turn(&OpenGate);
}
