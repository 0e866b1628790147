//! The items that a lane carries from one thread to another.
ghost use Rattle.std.specs.Prelude.{◌≡◌, ℕ};

/// An item that names its agent and its place among the items of that agent.
// Closing a lane drops the items that wait in it, so items must be droppable.
pub trait Carried: Drop {
    // The agent.
    ghost agent: { Self → ℕ };

    // The item's place among the agent's items.
    ghost number: { Self → ℕ };

    /// The agent that the item belongs to, from 0.
    fn agent(&self) -> u32
        ensures { result ≡ agent self.now };

    /// The item's place among those of its agent, from 0.
    fn number(&self) -> u32
        ensures { result ≡ number self.now };
}
