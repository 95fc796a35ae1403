//! The bytes of an import's file, as they were sent.
ghost use Rattle.std.specs.Prelude.{nat_eq};
ghost use Rattle.std.specs.Cmp.Lexicographic.{pointwise, nat_list_eq_equiv};
ghost use Rattle.std.specs.Cmp.{partial_equiv_from_equiv};

use crate::NoMemory;
use std::alloc::Global;
use std::marker::Model;

/// The bytes of an import, as they were sent.
pub struct Body {
    bytes: Vec<u8>,
}

// It is written out, so that a caller does not prove again how the bytes are dropped.
impl Drop for Body {
    fn drop(self) {
        let Body { bytes: _ } = self;
    }
}

impl Model for Body {
    ghost use Rattle.std.specs.Prelude.{List, ℕ};

    ghost Value = { List ℕ };

    ghost view = { λ b. b.bytes.items };
}

impl Body {
    ghost use Rattle.std.specs.Prelude.{◌≡◌, IfOk};

    /// A body of its own with the same bytes.
    pub fn copy(alloc: Global, bytes: &[u8]) -> Result<Body, NoMemory>
        ensures { IfOk result (λ b. b ≡ bytes.now) }
    {
        let mut copy = Vec::new(alloc);
        copy.extend_from_slice(bytes)?;
        Ok(Body { bytes: copy })
    }

    /// The bytes.
    pub fn as_slice(&self) -> &[u8]
        ensures { result.now ≡ self.now }
    {
        self.bytes.as_slice()
    }
}

/// The bytes of an import, in the request that sent them.
#[derive(Drop)]
pub struct BodyRef<'a> {
    bytes: &'a [u8],
}

impl<'a> Model for BodyRef<'a> {
    ghost use Rattle.std.specs.Prelude.{List, ℕ};

    ghost Value = { List ℕ };

    ghost view = { λ b. b.bytes.now };
}

impl<'a> BodyRef<'a> {
    ghost use Rattle.std.specs.Prelude.{◌≡◌};

    /// The bytes of this body.
    pub fn of(body: &'a Body) -> BodyRef<'a>
        ensures { result ≡ body.now }
    {
        BodyRef {
            bytes: body.as_slice(),
        }
    }

    /// The bytes.
    pub fn as_slice(&self) -> &'a [u8]
        ensures { result.now ≡ self.now }
    {
        self.bytes
    }
}

impl PartialEq for Body {
    ghost eq = { pointwise nat_eq };

    ghost laws = { partial_equiv_from_equiv nat_list_eq_equiv };

    fn eq(&self, other: &Self) -> bool {
        self.as_slice() == other.as_slice()
    }
}

impl Eq for Body {
    ghost laws = { nat_list_eq_equiv };
}
