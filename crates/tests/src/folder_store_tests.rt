//! Tests of `folder_store`: what a Maildir in a folder and calls in memory refuse, and what a loss of power leaves.

mod calls;
mod maildir;
mod power;
