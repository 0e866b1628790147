//! The law of keys, stated as the contract of a function that does nothing.
ghost use Rattle.std.specs.Prelude.{◌≡◌};
ghost use Rattle.dsn_text.specs.Key.{key_cmp};
ghost use Rattle.dsn_text.specs.contracts.key.KeyOrd.TheImpl;
ghost use Rattle.dsn_text.specs.declared.key.Key.{Key};

/// Keys are ordered by the byte of their service, and then by the bytes of their queue id.
pub fn keys_are_ordered()
    ensures { (first second : Key) → TheImpl.ghosts.cmp first second ≡ key_cmp first second }
{}
