//! Tests of real files, streams and clocks: what no case of `trials` can say.
#![tactic(auto)]

#[cfg(test)]
mod os_ports_tests;
