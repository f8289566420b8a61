//! Tests and worked examples of the NBD session and of the control lines, and tests of the lock.
#![tactic(auto)]

#[cfg(test)]
mod control_session_examples;
#[cfg(test)]
mod control_session_tests;
#[cfg(test)]
mod expecting;
#[cfg(test)]
mod nbd_session_examples;
#[cfg(test)]
mod nbd_session_tests;
#[cfg(test)]
mod refusing_ports;
#[cfg(test)]
mod turn_lock_tests;
