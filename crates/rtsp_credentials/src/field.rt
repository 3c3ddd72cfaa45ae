//! The parameters that matter, by their names.

ghost use Rattle.std.specs.Prelude.{◌≡◌, ◌∷◌, ◌++◌, [], IfSome};

use rtsp_transport::is_named;

/// A parameter that matters (RFC 7616 section 3.4).
#[derive(Clone, Copy)]
pub(crate) enum Field {
    Username,
    Realm,
    Nonce,
    Uri,
    Response,
    Algorithm,
    Qop,
    Nc,
    Cnonce,
}

impl Field {
    ghost use Rattle.rtsp_credentials.specs.Field.{name_of, field_named};

    // The name and its =, as nearly all write them.
    fn written(self) -> &'static [u8]
        ensures { result.now ≡ name_of self ++ 61 ∷ [] }
    {
        match self {
            Field::Username => b"username=",
            Field::Realm => b"realm=",
            Field::Nonce => b"nonce=",
            Field::Uri => b"uri=",
            Field::Response => b"response=",
            Field::Algorithm => b"algorithm=",
            Field::Qop => b"qop=",
            Field::Nc => b"nc=",
            Field::Cnonce => b"cnonce=",
        }
    }

    /// The one of a name, whatever the case of its letters.
    pub(crate) fn named(name: &[u8]) -> Option<Field>
        ensures { result ≡ field_named name.now }
    {
        if is_named(name, b"username") {
            Some(Field::Username)
        } else if is_named(name, b"realm") {
            Some(Field::Realm)
        } else if is_named(name, b"nonce") {
            Some(Field::Nonce)
        } else if is_named(name, b"uri") {
            Some(Field::Uri)
        } else if is_named(name, b"response") {
            Some(Field::Response)
        } else if is_named(name, b"algorithm") {
            Some(Field::Algorithm)
        } else if is_named(name, b"qop") {
            Some(Field::Qop)
        } else if is_named(name, b"nc") {
            Some(Field::Nc)
        } else if is_named(name, b"cnonce") {
            Some(Field::Cnonce)
        } else {
            None
        }
    }

    /// The parameter and what is behind its =, where these are at the front.
    #[inline(always)]
    pub(crate) fn at_front(self, text: &[u8]) -> Option<(Field, &[u8])>
        ensures { IfSome result (λ p. text.now ≡ name_of p.0 ++ 61 ∷ p.1.now) }
    {
        let behind = text.strip_prefix(self.written())?;
        Some((self, behind))
    }
}
