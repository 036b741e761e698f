use crate::cores::make_core;
use resolver::opaque::laws::{dead_verdicts_pass, opaque_keeps_demand, opaque_runs_join};
use resolver::p2p::laws as peers;
use resolver::p2p::laws::{
    asked_once, asks_eligible, asks_well, earns_once, engine_runs_join, ids_are_new,
    judges_by_the_run, keeps_demand, no_second_reply, passed_over_pass, pays_once, pays_senders,
    replies_once, responses_are_delivered, rests_after_scans, run_laws, runs_are_said, runs_join,
    stays_awake, tries_once,
};
use resolver::p2p::mocks::Key;
use resolver_model::ruling::{Ruling, rule_on};

#[test]
fn laws_of_machines_at_numbers(_rt: HostRuntime) {
    dead_verdicts_pass::<u8, u32, u16>();
    opaque_keeps_demand::<u8, u32, u16>();
    opaque_runs_join::<u8, u32, u16>();
}

#[test]
fn of_the_peer_machine_at_numbers(_rt: HostRuntime) {
    earns_once::<u8, u16, u32>();
    asks_eligible::<u8, u16, u32>();
    tries_once::<u8, u16, u32>();
    keeps_demand::<u8, u16, u32>();
    pays_once::<u8, u16, u32>();
    pays_senders::<u8, u16, u32>();
    asks_well::<u8, u16, u32>();
    ids_are_new::<u8, u16, u32>();
    stays_awake::<u8, u16, u32>();
    asked_once::<u8, u16, u32>();
    run_laws::<u8, u16, u32>();
    runs_join::<u8, u16, u32>();
    judges_by_the_run::<u8, u16, u32>();
}

#[test]
fn of_single_inputs_at_numbers(_rt: HostRuntime) {
    replies_once::<u8, u16, u32>();
    no_second_reply::<u8, u16, u32>();
    passed_over_pass::<u8, u16, u32>();
    peers::dead_verdicts_pass::<u8, u16, u32>();
    responses_are_delivered::<u8, u16, u32>();
    rests_after_scans::<u8, u16, u32>();
}

#[test]
fn of_an_engine_at_keys_of_one_byte(_rt: HostRuntime) {
    engine_runs_join::<Key, u16, u32>();
    runs_are_said::<Key, u16, u32>();
}

#[test]
fn a_delivery_that_was_dropped_is_served(rt: HostRuntime) {
    assert_eq!(rt; rule_on(None, false), Ruling::Serve { accepted: false });
}

#[test]
fn of_a_core_that_has_not_failed(rt: HostRuntime) {
    let core = make_core(rt.alloc(), None);
    core.law();
}
