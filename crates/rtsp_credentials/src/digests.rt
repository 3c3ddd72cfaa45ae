//! The users with a digest of one hash function.

ghost use Rattle.std.specs.Prelude.{◌≡◌, ◌==◌, ◌⊎◌, [], length, Ok, Err, OnOk, IfErr};
ghost use Rattle.rtsp_text.specs.Slices.{held};
ghost use Rattle.rtsp_credentials.specs.declared.users_fault.UsersFault.TheVariants.{OutOfMemory};

use crate::users_fault::{UsersFault, must};
use indexmap::IndexMap;
use rtsp_text::Text;
use std::alloc::Global;
use std::marker::Model;

/// The users with a digest of one hash function, which contracts see as a list. A look-up takes the
/// same time however many there are.
#[derive(Drop)]
pub struct Digests {
    secrets: IndexMap<Vec<u8>, Text>,
}

impl Model for Digests {
    ghost use Rattle.std.specs.Prelude.{List, map};
    ghost use Rattle.rtsp_credentials.specs.User.{User, user};

    ghost Value = { List User };

    ghost view = { λ d. map (λ e. user e.0.items e.1) d.secrets.entries };
}

impl Digests {
    ghost use Rattle.rtsp_credentials.specs.User.{secret_at};
    ghost use Rattle.rtsp_credentials.specs.Adding.{with_new};

    /// No user.
    pub(crate) fn new(alloc: Global) -> Digests
        ensures { result ≡ [] }
    {
        Digests {
            secrets: IndexMap::new(alloc),
        }
    }

    pub(crate) fn is_empty(&self) -> bool
        ensures { result ≡ (length self.now == 0) }
    {
        self.secrets.len() == 0
    }

    /// H(A1) of a user.
    pub(crate) fn secret_of(&self, name: &[u8]) -> Option<&[u8]>
        ensures { held result ≡ secret_at self.now name.now }
    {
        let secret = self.secrets.get(name)?;
        Some(secret.as_bytes())
    }

    /// Adds a user. It isn't to be used again after a fault.
    pub(crate) fn add(
        &mut self,
        alloc: Global,
        name: &[u8],
        secret: &[u8],
    ) -> Result<(), UsersFault>
        ensures ok { OnOk result (with_new self.old name.now secret.now ≡ Ok self.new) }
        ensures err { IfErr result (λ e. (e ≡ OutOfMemory) ⊎ (with_new self.old name.now secret.now ≡ Err e)) }
    {
        let name = Vec::from_slice(alloc, name)?;
        let secret = Text::from_slice(alloc, secret)?;
        let old = self.secrets.insert(name, secret)?;
        must(old.is_none(), UsersFault::Twice)
    }
}
