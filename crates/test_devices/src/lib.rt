//! Devices for tests: links with prepared or endless replies or with a fuse, stores with a fuse, and folders in
//! memory that lose their power.
#![tactic(auto)]

mod endless_wire;
mod fused;
mod fused_wire;
mod laws;
mod memory_calls;
mod memory_folder;
mod memory_folders;
mod memory_shared;
mod new_file;
mod script_wire;
mod stored_mail;
mod torn;

pub use endless_wire::EndlessWire;
pub use fused::Fused;
pub use fused_wire::FusedWire;
pub use laws::{files_are_lost, mail_is_lost};
pub use memory_calls::{CallFuse, MemoryCalls, MemoryMade, MemoryOpened};
pub use memory_folder::{Left, MemoryFolder};
pub use memory_folders::{MemoryFolderMaildir, MemoryFolders, ReaderStep};
pub use memory_shared::{MemoryShared, OpenedMail};
pub use new_file::MemoryNewFile;
pub use script_wire::ScriptWire;
pub use stored_mail::{FoundMail, MailLeft};
