//! A query of a register, and who asks it.
ghost use Rattle.std.specs.Prelude.{◌≡◌, IfOk};
ghost use Rattle.fr_cli.specs.Queries.{reader_named, reader_of, request_for};

use fr_base::{Actor, Name, NoMemory, Query, QueryReader, Request, Text};
use std::alloc::Global;

/// A query of a register, as the integrator asks it, or the supplier of this name.
#[derive(Clone, Copy, PartialEq, Eq)]
pub struct Inquiry<'a> {
    /// What is asked.
    pub query: Query<&'a str>,
    /// The supplier that asks; the integrator, where none is named.
    pub supplier: Option<&'a str>,
}

impl Inquiry<'_> {
    /// Who asks. A text that is no name is nobody's.
    pub fn reader(self) -> Option<Actor>
        ensures { result ≡ reader_of self.entry }
    {
        reader_named(self.supplier)
    }

    /// What is asked.
    pub fn request(self, alloc: Global) -> Result<Request, NoMemory>
        ensures { IfOk result (λ request. request ≡ request_for self.entry) }
    {
        let query = self.query.read(&Copies { alloc })?;
        Ok(Request::Query(query))
    }
}

/// Reads a query, or what a file is delivered for: its names are copied, its numbers stay as they are.
#[derive(Drop)]
pub(crate) struct Copies {
    pub(crate) alloc: Global,
}

impl<'a> QueryReader<&'a str, u32, Text, NoMemory> for Copies {
    ghost use Rattle.std.specs.Prelude.{◌≡◌, IfOk};

    ghost reads = { λ _ name result. IfOk result (λ copy. copy ≡ name.now) };

    ghost counts = { λ _ number result. IfOk result (λ same. same ≡ number) };

    fn read_name(&self, name: &&'a str) -> Result<Text, NoMemory> {
        Text::copy(self.alloc, name)
    }

    fn read_number(&self, number: &u32) -> Result<u32, NoMemory>
        ensures { IfOk result (λ same. same ≡ number.now) }
    {
        Ok(*number)
    }
}

/// Who reads a report: the supplier of this name, or the integrator where none is named. A text that is no name is nobody's.
pub fn reader_named(supplier: Option<&str>) -> Option<Actor>
    ensures { result ≡ reader_named supplier.entry }
{
    match supplier {
        Some(name) => Name::read(name).map(Actor::Supplier),
        None => Some(Actor::Integrator),
    }
}
