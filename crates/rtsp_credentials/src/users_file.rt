//! Reads a file of users.

ghost use Rattle.std.specs.Prelude.{◌≡◌, ◌⊎◌, ◌<◌, ◌∷◌, [], length, Ok, Err, OnOk, IfErr, IfSome};
ghost use Rattle.std.specs.List.{list_all};
ghost use Rattle.rtsp_text.specs.Slices.{held, halves};
ghost use Rattle.rtsp_text.specs.Results.{Gives, GivesBy};
ghost use Rattle.rtsp_text.specs.SplitOnce.{split_once};
ghost use Rattle.rtsp_credentials.specs.Seen.{seen};
ghost use Rattle.rtsp_credentials.specs.UsersFile.{lines, lines_left, is_name_byte, is_name, is_digit, algorithm_by, algorithm_of, algorithm_or, halves_or, line_of, is_realm, no_users, all_added, users_among, users_of};
ghost use Rattle.rtsp_credentials.specs.UsersFileView.{found_in};
ghost use Rattle.rtsp_credentials.specs.declared.users_fault.UsersFault.TheVariants.{OutOfMemory};

use crate::algorithm::Algorithm;
use crate::users::{UserTable, Users};
use crate::users_fault::{UsersFault, must};
use rtsp_text::{Text, split_once};
use std::alloc::Global;

fn is_name_byte(byte: u8) -> bool
    ensures { result ≡ is_name_byte byte }
{
    b' ' <= byte && !(byte == b'"' || byte == b'\\' || byte == 127)
}

fn are_name_bytes(text: &[u8]) -> bool
    ensures { result ≡ list_all is_name_byte text.now }
{
    text.iter().all(|byte| is_name_byte(*byte))
}

fn is_name(text: &[u8]) -> bool
    ensures { result ≡ is_name text.now }
{
    !text.is_empty() && are_name_bytes(text)
}

fn is_digit(byte: u8) -> bool
    ensures { result ≡ is_digit byte }
{
    (b'0' <= byte && byte <= b'9') || (b'a' <= byte && byte <= b'f')
}

fn are_digits(text: &[u8]) -> bool
    ensures { result ≡ list_all is_digit text.now }
{
    text.iter().all(|byte| is_digit(*byte))
}

// The hash function whose digests have so many digits.
fn algorithm_by(digits: usize) -> Option<Algorithm>
    ensures { result ≡ algorithm_by digits }
{
    match digits {
        32 => Some(Algorithm::Md5),
        64 => Some(Algorithm::Sha256),
        _ => None,
    }
}

// The hash function that a text is a digest of.
fn algorithm_of(text: &[u8]) -> Option<Algorithm>
    ensures { result ≡ algorithm_of text.now }
{
    if are_digits(text) {
        algorithm_by(text.len())
    } else {
        None
    }
}

fn algorithm_or(algorithm: Option<Algorithm>) -> Result<Algorithm, UsersFault>
    ensures { result ≡ algorithm_or algorithm }
{
    algorithm.ok_or(UsersFault::WrongDigest)
}

// The line at the front, and what follows its end.
#[tactic(auto, using(crate::proofs::Lines::uncut, crate::proofs::Lines::cut_here, crate::proofs::Lines::cut_shorter))]
fn first_line(text: &[u8]) -> (&[u8], Option<&[u8]>)
    ensures parts { lines text.now ≡ result.0.now ∷ lines_left (held result.1) }
    ensures shorter { IfSome result.1 (λ rest. length rest.now < length text.now) }
{
    match split_once(text, b'\n') {
        Some((line, rest)) => (line, Some(rest)),
        None => (text, None),
    }
}

/// A line of a file.
#[derive(Clone, Copy)]
struct Line<'a> {
    name: &'a [u8],
    realm: &'a [u8],
    digest: &'a [u8],
    algorithm: Algorithm,
}

fn halves_or(text: &[u8]) -> Result<(&[u8], &[u8]), UsersFault>
    ensures { seen (λ p. (p.0.now, p.1.now)) result ≡ halves_or (split_once 58 text.now) }
{
    match split_once(text, b':') {
        Some(parts) => Ok(parts),
        None => Err(UsersFault::NoLine),
    }
}

impl<'a> Line<'a> {
    ghost use Rattle.rtsp_credentials.specs.UsersFileView.{shown};

    #[tactic(auto, unfolding(crate::specs::UsersFile::line_of))]
    fn read(text: &'a [u8]) -> Result<Line<'a>, UsersFault>
        ensures { seen shown result ≡ line_of text.now }
    {
        let (name, rest) = halves_or(text)?;
        let (realm, digest) = halves_or(rest)?;
        must(is_name(name), UsersFault::WrongName)?;
        must(is_name(realm), UsersFault::WrongRealm)?;
        let algorithm = algorithm_or(algorithm_of(digest))?;
        Ok(Line {
            name,
            realm,
            digest,
            algorithm,
        })
    }
}

// The realm and the users so far.
#[derive(Drop)]
struct Found<'a> {
    realm: Option<&'a [u8]>,
    users: UserTable,
}

// Whether it is the realm of the lines before, where there are some.
fn is_realm(found: Option<&[u8]>, realm: &[u8]) -> bool
    ensures { result ≡ is_realm (held found.entry) realm.now }
{
    match found {
        Some(first) => first == realm,
        None => true,
    }
}

impl<'a> Found<'a> {
    ghost use Rattle.rtsp_credentials.specs.UsersFile.{joined_by, added};
    ghost use Rattle.rtsp_credentials.specs.UsersFileView.{shown};

    // Adds the user of a line.
    #[tactic(auto, unfolding(crate::specs::UsersFile::joined_by))]
    fn join(&mut self, alloc: Global, line: &Line<'a>) -> Result<(), UsersFault>
        ensures ok { OnOk result (joined_by (found_in self.old) (shown line.now) ≡ Ok (found_in self.new)) }
        ensures err { IfErr result (λ e. (e ≡ OutOfMemory) ⊎ (joined_by (found_in self.old) (shown line.now) ≡ Err e)) }
    {
        must(is_realm(self.realm, line.realm), UsersFault::OtherRealm)?;
        self.users
            .add(alloc, line.algorithm, line.name, line.digest)?;
        self.realm = Some(line.realm);
        Ok(())
    }

    // Adds the user of a text, where it has one.
    #[tactic(auto, unfolding(crate::specs::UsersFile::added))]
    fn add(&mut self, alloc: Global, text: &'a [u8]) -> Result<(), UsersFault>
        ensures ok { OnOk result (added (found_in self.old) text.now ≡ Ok (found_in self.new)) }
        ensures err { IfErr result (λ e. (e ≡ OutOfMemory) ⊎ (added (found_in self.old) text.now ≡ Err e)) }
    {
        if text.is_empty() {
            return Ok(());
        }
        let line = Line::read(text)?;
        self.join(alloc, &line)
    }
}

// All that a text adds.
#[tactic(auto, using(crate::proofs::Lines::more, crate::proofs::Lines::fails, crate::proofs::Lines::ended))]
fn found_of(alloc: Global, text: &[u8]) -> Result<Found<'_>, UsersFault>
    ensures { GivesBy OutOfMemory found_in result (all_added no_users (lines text.now)) }
{
    let mut found = Found {
        realm: None,
        users: UserTable::new(alloc),
    };
    let mut left = Some(text);
    'lines: while let Some(text) = left {
        let (line, behind) = first_line(text);
        match found.add(alloc, line) {
            Ok(()) => {}
            Err(fault) => return Err(fault),
        }
        left = behind;
    }
    Ok(found)
}

fn users_among(alloc: Global, found: Found<'_>) -> Result<Users, UsersFault>
    ensures { Gives OutOfMemory result (users_among (found_in found.entry) (held found.entry.realm)) }
{
    let Found { realm, users } = found;
    match realm {
        Some(realm) => {
            let offer = users.offer();
            Ok(Users {
                realm: Text::from_slice(alloc, realm)?,
                users,
                offer,
            })
        }
        None => Err(UsersFault::Empty),
    }
}

/// Reads a file of users: lines `name:realm:digest`, as htdigest writes them, where the digest is 32
/// hexadecimal digits of MD5 or 64 of SHA-256. A user may have both. All are of one realm.
#[tactic(auto, unfolding(crate::specs::UsersFile::users_of))]
pub fn read_users(alloc: Global, text: &[u8]) -> Result<Users, UsersFault>
    ensures { Gives OutOfMemory result (users_of text.now) }
{
    let found = found_of(alloc, text)?;
    users_among(alloc, found)
}
