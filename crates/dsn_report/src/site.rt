//! The mail system that notices come from: its host name, and its templates.
//! Implements noticed(8).
ghost use Rattle.std.specs.Prelude.{◌≡◌, ◌↔◌, IsTrue, IfOk, IsOk, IsErrOf};
ghost use Rattle.std.specs.List.{list_all};
ghost use Rattle.dsn_report.specs.Site.{IsHost, is_host_byte, plain_site, site_fault_code};

use crate::templates::Templates;
use dsn_text::fault_code;
use std::alloc::Global;
use std::marker::Model;
use thiserror::Error;

/// The length limit of a host name, in bytes (RFC 5321 section 4.5.3.1.2).
pub const LONGEST_HOST: usize = 255;

/// Why a host name is refused.
#[derive(Clone, Copy, Debug, PartialEq, Eq, Error)]
pub enum SiteFault {
    /// The host name is empty, is too long, or has a byte other than ASCII letters, digits, `.` and
    /// `-`.
    #[error("not a host name")]
    BadHost,
    /// Memory for the host name was refused.
    #[error("out of memory")]
    NoMemory,
}

impl SiteFault {
    /// The number of the fault: 51 for `BadHost`, 9 for `NoMemory`. The program has no message for
    /// 51.
    pub fn code(&self) -> u32
        ensures { result ≡ site_fault_code self.now }
    {
        match self {
            SiteFault::BadHost => fault_code::BAD_HOST,
            SiteFault::NoMemory => fault_code::NO_MEMORY,
        }
    }
}

/// The mail system that notices come from: its host name, and its templates. A host name is 1 to
/// 255 ASCII letters, digits, `.` and `-`.
#[derive(Debug, Drop)]
pub struct Site {
    host: Vec<u8>,
    templates: Templates,
}

impl Model for Site {
    ghost use Rattle.dsn_report.specs.Site.{IsHost, Site};

    ghost Value = { Site };

    ghost view = { λ s. record { host = s.host.items; templates = s.templates } };

    ghost invariant = { λ s. IsHost s.host.items };
}

impl Site {
    /// Whether a text is a valid host name. It takes no memory.
    pub fn is_valid(host: &[u8]) -> bool
        ensures { IsTrue result ↔ IsHost host.now }
    {
        1 <= host.len() && host.len() <= LONGEST_HOST && has_host_bytes(host)
    }

    /// Returns the site with this host name, without templates. Returns `BadHost` if it is not
    /// valid, and `NoMemory` only if memory for it was refused.
    pub fn new(alloc: Global, host: &[u8]) -> Result<Site, SiteFault>
        ensures kept { IfOk result (λ site. site ≡ plain_site host.now) }
        ensures legal { IsOk result → IsHost host.now }
        ensures bad { IsErrOf result SiteFault.BadHost ↔ ¬ IsHost host.now }
    {
        if !Site::is_valid(host) {
            return Err(SiteFault::BadHost);
        }
        let host = host.to_vec(alloc).map_err(|_| SiteFault::NoMemory)?;
        Ok(Site {
            host,
            templates: Templates::none(),
        })
    }

    /// Returns the site with these templates.
    pub fn with_templates(self, templates: Templates) -> Site
        ensures { result ≡ record { host = self.host; templates = templates } }
    {
        let Site { host, templates: _ } = self;
        Site { host, templates }
    }

    /// The host name.
    pub fn host(&self) -> &[u8]
        ensures same { result.now ≡ self.now.host }
        ensures legal { IsHost self.now.host }
    {
        self.host.as_slice()
    }

    /// The templates.
    pub fn templates(&self) -> &Templates
        ensures { result.now ≡ self.now.templates }
    {
        &self.templates
    }
}

/// Whether a host name may have each of these bytes.
fn has_host_bytes(host: &[u8]) -> bool
    ensures { result ≡ list_all is_host_byte host.now }
{
    host.iter().all(|&byte| is_host_byte(byte))
}

/// Whether a host name may have this byte.
fn is_host_byte(byte: u8) -> bool
    ensures { result ≡ is_host_byte byte }
{
    matches!(byte, b'0'..=b'9' | b'A'..=b'Z' | b'a'..=b'z' | b'.' | b'-')
}
