//! A maildrop for the server whose messages are the files of a Maildir in a real folder.
#![tactic(auto)]

mod finding;
mod folders_look;
mod listed_file;
mod listing;
mod mail_files;
mod maildir_drop;
mod maildir_folders;
mod maildir_names;
mod memory_files;
mod memory_names;
mod removal;
mod safe_maildir;
mod same_octets;
mod seen_files;

pub use folders_look::FoldersLook;
pub use mail_files::{FileWay, Found, MailFiles};
pub use maildir_drop::{FilesDrop, MaildirDrop};
pub use maildir_folders::MaildirFolders;
pub use maildir_names::{FileNumber, Folder, PlacedFile, Stamp};
pub use memory_files::MemoryFiles;
pub use removal::TwoMessages;
pub use safe_maildir::check_maildir;
