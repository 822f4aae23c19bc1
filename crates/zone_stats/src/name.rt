//! The name of a zone.
ghost use Rattle.std.specs.Prelude.{◌≡◌, ◌≤◌, ◌<◌, IsTrue, ◌↔◌, length};
ghost use Rattle.std.specs.Option.{SomeIff};
ghost use Rattle.zone_stats.specs.Name.{IsName, is_name_character};

use arrayvec::ArrayVec;
use std::marker::Model;

/// The most bytes that a name has.
const NAME_MAX: usize = 16;

/// The name of a zone: 1 to 16 characters of `A-Z a-z 0-9 _ -`.
///
/// It lies in the value itself, so to make or to copy one takes no memory. Contracts see the list of its bytes.
#[derive(Debug, Drop, PartialEq, Eq, Hash)]
pub struct ZoneName {
    bytes: ArrayVec<u8, NAME_MAX>,
}

impl Model for ZoneName {
    ghost use Rattle.std.specs.Prelude.{ℕ, List};
    ghost use Rattle.zone_stats.specs.Name.{IsName};

    ghost Value = { List ℕ };

    ghost view = { λ name. name.bytes.items };

    ghost invariant = { λ name. IsName name.bytes.items };

    ghost inverse = { λ bytes. record { bytes = record { items = bytes } } };
}

impl ZoneName {
    /// The name that these bytes spell, if they are a name.
    pub fn new(bytes: &[u8]) -> Option<ZoneName>
        ensures { SomeIff result (IsName bytes.now) bytes.now }
    {
        if bytes.is_empty() || !bytes.iter().all(|&byte| is_name_character(byte)) {
            return None;
        }
        match ArrayVec::try_from(bytes) {
            Ok(bytes) => Some(ZoneName { bytes }),
            Err(_) => None,
        }
    }

    /// The bytes of the name, all of ASCII.
    pub fn as_bytes(&self) -> &[u8]
        ensures value { result.now ≡ self.now }
        ensures name { IsName self.now }
    {
        self.bytes.as_slice()
    }

    /// The same name again. Unlike `clone` it can't fail.
    pub fn copied(&self) -> ZoneName
        ensures value { result ≡ self.now }
        ensures name { IsName self.now }
    {
        let bytes = ArrayVec::try_from(self.bytes.as_slice()).unwrap();
        ZoneName { bytes }
    }
}

/// Whether a name may have this byte.
fn is_name_character(byte: u8) -> bool
    ensures { result ≡ is_name_character byte }
{
    byte.is_ascii_alphanumeric() || byte == b'_' || byte == b'-'
}
