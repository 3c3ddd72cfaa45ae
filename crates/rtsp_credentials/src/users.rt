//! The users of a server.

ghost use Rattle.std.specs.Prelude.{◌≡◌, ◌⊎◌, [], Ok, Err, OnOk, IfErr};
ghost use Rattle.rtsp_text.specs.Slices.{held};
ghost use Rattle.rtsp_credentials.specs.Users.{has_users, offer_in, offer_of, secret_in};
ghost use Rattle.rtsp_credentials.specs.declared.users_fault.UsersFault.TheVariants.{OutOfMemory};

use crate::algorithm::Algorithm;
use crate::digests::Digests;
use crate::users_fault::UsersFault;
use rtsp_text::Text;
use std::alloc::Global;

/// Users, by the hash function that their digests are of. A user may have one of each.
#[derive(Drop)]
pub struct UserTable {
    pub md5: Digests,
    pub sha256: Digests,
}

/// The hash functions that the digests of some users are of.
#[derive(Clone, Copy, Debug, PartialEq, Eq)]
pub enum Offer {
    Md5,
    Sha256,
    Both,
}

/// The users of a realm.
#[derive(Drop)]
pub struct Users {
    pub realm: Text,
    pub users: UserTable,
    /// What is offered to whoever is asked for credentials.
    pub offer: Offer,
}

fn offer_of(has_sha256: bool, has_md5: bool) -> Offer
    ensures { result ≡ offer_of has_sha256 has_md5 }
{
    match (has_sha256, has_md5) {
        (true, true) => Offer::Both,
        (true, false) => Offer::Sha256,
        (false, _) => Offer::Md5,
    }
}

impl UserTable {
    ghost use Rattle.rtsp_credentials.specs.Adding.{table_with};

    /// No user.
    pub(crate) fn new(alloc: Global) -> UserTable
        ensures { result ≡ record { md5 = []; sha256 = [] } }
    {
        UserTable {
            md5: Digests::new(alloc),
            sha256: Digests::new(alloc),
        }
    }

    /// The hash functions that the digests of these users are of.
    pub(crate) fn offer(&self) -> Offer
        ensures { result ≡ offer_in self.now }
    {
        offer_of(!self.sha256.is_empty(), !self.md5.is_empty())
    }

    /// Adds a user. It isn't to be used again after a fault.
    pub(crate) fn add(
        &mut self,
        alloc: Global,
        algorithm: Algorithm,
        name: &[u8],
        secret: &[u8],
    ) -> Result<(), UsersFault>
        ensures ok { OnOk result (table_with self.old algorithm name.now secret.now ≡ Ok self.new) }
        ensures err { IfErr result (λ e. (e ≡ OutOfMemory) ⊎ (table_with self.old algorithm name.now secret.now ≡ Err e)) }
    {
        match algorithm {
            Algorithm::Md5 => self.md5.add(alloc, name, secret),
            Algorithm::Sha256 => self.sha256.add(alloc, name, secret),
        }
    }
}

impl Users {
    /// H(A1) of a user, by a hash function.
    pub fn secret_of(&self, name: &[u8], algorithm: Algorithm) -> Option<&[u8]>
        ensures { held result ≡ secret_in self.now.users name.now algorithm }
    {
        match algorithm {
            Algorithm::Md5 => self.users.md5.secret_of(name),
            Algorithm::Sha256 => self.users.sha256.secret_of(name),
        }
    }
}
