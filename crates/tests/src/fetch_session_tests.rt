//! Tests of `fetch_session`: sessions whose links and devices are in memory.

mod endless;
mod visits;
