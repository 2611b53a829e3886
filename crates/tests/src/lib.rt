//! The tests of the libraries: what neither a contract nor a test of a program shows. They are here, above
//! all that they test, since a library with tests of its own is proved twice.
#![tactic(auto)]

#[cfg(test)]
mod fetch_session_tests;
#[cfg(test)]
mod folder_drop_tests;
#[cfg(test)]
mod folder_store_tests;
#[cfg(test)]
mod getmail_program_tests;
#[cfg(test)]
mod local_fetch_tests;
#[cfg(test)]
mod no_memory_tests;
#[cfg(test)]
mod pop3_server_tests;
#[cfg(test)]
mod pop3_wire_tests;
#[cfg(test)]
mod support;
#[cfg(test)]
mod system_calls_tests;
