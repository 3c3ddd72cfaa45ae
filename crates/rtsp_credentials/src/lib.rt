//! Who a request is from: Digest (RFC 7616), as RFC 7826 section 19.1 has it.
//!
//! `credentials` is what the Authorization header says, by `parameters`; `users` are those of a
//! server, which `users_file` reads. `gate` judges the requests of a connection, and `challenge` is
//! what it asks of whom it refuses; `by_md5` and `by_sha256` have the hashes. The definitions of
//! `specs/`: Digest (the response), Verdict (which request is let through, as it is computed and in
//! the words of the RFC), Grammar (the header), UsersFile.

#![tactic(auto)]

mod algorithm;
mod by_md5;
mod by_sha256;
mod challenge;
mod comparing;
mod count;
mod credentials;
mod digests;
mod field;
mod gate;
mod laws;
mod parameters;
mod plain_front;
mod protection;
mod refusal;
mod users;
mod users_fault;
mod users_file;

pub use algorithm::Algorithm;
pub use by_md5::{md5_response, md5_secret};
pub use by_sha256::{sha256_response, sha256_secret};
pub use challenge::write_challenge;
pub use count::Count;
pub use credentials::{Credentials, count_number};
pub use digests::Digests;
pub use gate::{Gate, Passage};
pub use laws::{law_only_rightful, law_reads_grammar, law_rightful_pass};
pub use parameters::Parameters;
pub use protection::Protection;
pub use refusal::Refusal;
pub use users::{Offer, UserTable, Users};
pub use users_fault::UsersFault;
pub use users_file::read_users;
