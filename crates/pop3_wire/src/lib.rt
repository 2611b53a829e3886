//! POP3 as octets: command lines, reply lines, dot-stuffed bodies, and the link that carries them
//! (RFC 1939).
#![tactic(auto)]

mod body;
mod body_reader;
mod command;
mod command_line;
mod fault;
mod fields;
mod keyword;
mod line;
mod line_reader;
mod note;
mod reply;
mod stream_wire;
mod stuffing;
mod unstuffer;
mod wire;

pub use body::{is_end_mark, unstuff, without_dot};
pub use body_reader::{BodyFault, BodyReader, PIECE_ROOM, Piece};
pub use command::{Command, command_bytes};
pub use command_line::{
    commands_are_lines, fronts_are_asked, only_one_list_of_commands, read_as_written, read_command,
};
pub use fault::WireFault;
pub use fields::{
    read_scan, read_stat, read_uid, rows_have_fields, scan_rows_have_a_form, uid_rows_have_a_form,
};
pub use line::{cut_line, only_one_line};
pub use line_reader::{LineFault, LineReader};
pub use mail_terms::{Bytes, is_legal_id};
pub use note::{Asked, Note};
pub use reply::{
    Status, only_one_list_of_lines, only_one_reading, read_status, replies_are_read_as_written,
};
pub use stream_wire::StreamWire;
pub use stuffing::{only_one_body, put_line, stuff, stuffed_is_body, stuffed_is_read};
pub use unstuffer::{
    Fed, Spot, Unstuffer, ends_with_body, holds_no_body, shows_a_beginning, starts_empty,
};
pub use wire::{Wire, WireDown};
