//! Which queues keep their files in folders within their own folder.
//! Implements docs/postfix-internals.md, "Files".
ghost use Rattle.std.specs.Prelude.{◌≡◌};
ghost use Rattle.std.specs.List.{list_any};
ghost use Rattle.std.specs.Str.{str_eq_ignore_ascii_case};
ghost use Rattle.dsn_postfix_queue.specs.queue_folder.FolderHashing.{depth_of};

use dsn_postfix::QueueName;

/// Which of Postfix's queues keep their files in folders within the queue's own folder, and how
/// deep (`hash_queue_names` and `hash_queue_depth` of postconf(5)).
#[derive(Clone, Copy, Debug)]
pub struct FolderHashing<'a> {
    /// The names of these queues.
    pub queues: &'a [QueueName<'a>],
    /// How many folders deep their files are.
    pub depth: u32,
}

impl FolderHashing<'_> {
    /// How many folders deep the files of a queue are. Names are compared without regard to ASCII
    /// case.
    pub fn depth_of(&self, queue: &[u8]) -> u32
        ensures { result ≡ depth_of self.now queue.now }
    {
        if is_among(self.queues, queue) {
            self.depth
        } else {
            0
        }
    }
}

/// Whether a queue's name is among these, without regard to ASCII case.
fn is_among(queues: &[QueueName<'_>], queue: &[u8]) -> bool
    ensures { result ≡ list_any (λ name. str_eq_ignore_ascii_case name queue.now) queues.now }
{
    queues.iter().any(|name| is_named(name, queue))
}

/// Whether a queue's name is this one, without regard to ASCII case.
fn is_named(name: &QueueName<'_>, queue: &[u8]) -> bool
    ensures { result ≡ str_eq_ignore_ascii_case name.now queue.now }
{
    name.bytes().eq_ignore_ascii_case(queue)
}
