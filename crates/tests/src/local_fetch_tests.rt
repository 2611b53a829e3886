//! Tests of `local_fetch`: sessions with both ends in one program.

mod cuts;
