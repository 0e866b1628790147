//! The queue folder of a running Postfix as a mail system: its logs, its messages' files and its own
//! services.
#![tactic(auto)]

mod queue_folder;
mod system_time;

pub use queue_folder::{
    FolderHashing, LargeFiles, MOST_DEPTH, OtherDepth, PostfixSetup, PostfixSystem, PreviewSystem,
    QueueFault, QueueFolder, ascii_text, ask_own_service, asked_text, check_queues, depth_against,
    path_in_queue, socket_name,
};
pub use system_time::stamp_of;
