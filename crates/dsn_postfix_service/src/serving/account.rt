//! The account as which a Postfix is served.
ghost use Rattle.std.specs.Prelude.{◌≡◌, ◌↔◌, IsOk, IfErr};

use std::os::unix::fs::MetadataExt;
use std::{fs, io};
use thiserror::Error;

/// The folder of a Postfix's sockets belongs to another account than the process's.
#[derive(Clone, Copy, Debug, Drop, PartialEq, Eq, Error)]
#[error("belongs to another account (user {owner}); noticed runs as user {own}: start it as the owner")]
pub struct OtherAccount {
    /// The user id of the owner.
    pub owner: u32,
    /// The user id of the process.
    pub own: u32,
}

/// Returns an error unless the process runs as the owner. As another user, even as root, it would
/// make log files that Postfix can't read or remove.
pub fn check_owner(owner: u32, own: u32) -> Result<(), OtherAccount>
    ensures accepted { IsOk result ↔ owner ≡ own }
    ensures refused { IfErr result (λ other. (other.owner ≡ owner) × (other.own ≡ own)) }
{
    if owner == own {
        Ok(())
    } else {
        Err(OtherAccount { owner, own })
    }
}

/// The user id of the owner of the folder of a Postfix's sockets.
pub(super) fn owner_of_sockets(rt: &HostRuntime, folder: &str) -> io::Result<u32> {
    let path = format!(in rt.alloc(); "{folder}/private")?;
    Ok(fs::metadata(rt, path.as_str())?.uid())
}

/// The effective user id of the process.
pub(super) fn own_account() -> u32 {
    libc::geteuid()
}
