//! The queue folder of a running Postfix as a mail system: its logs, its messages' files, its own
//! services, and the mail server to which notices are submitted.
mod ascii;
mod folder_hashing;
mod hashed_id;
mod large_files;
mod log_file;
mod message_file;
mod notice_words;
mod own_service;
mod postfix_setup;
mod postfix_system;
mod preview_system;
mod queue_check;
mod queue_entry;
mod queue_files;
mod queue_folder;
mod queue_path;
mod service_name;

pub use ascii::{ascii_text, asked_text};
pub use folder_hashing::FolderHashing;
pub use large_files::LargeFiles;
pub use own_service::ask_own_service;
pub use postfix_setup::PostfixSetup;
pub use postfix_system::PostfixSystem;
pub use preview_system::PreviewSystem;
pub use queue_check::{MOST_DEPTH, OtherDepth, QueueFault, check_queues};
pub use queue_entry::depth_against;
pub use queue_folder::QueueFolder;
pub use queue_path::path_in_queue;
pub use service_name::socket_name;
