//! Tests of the sockets.
#![tactic(auto)]

#[cfg(test)]
mod tcp_ports_tests;
