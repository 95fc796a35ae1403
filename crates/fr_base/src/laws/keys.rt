//! Whose a key is, it stays; when a supplier has another key, and what that changes.
ghost use Rattle.fr_base.specs.KeyLaws.{KeyStays, SetKeyChangesOneKey, SetKeyIsDone};

/// Whose a key is, it stays, whatever is asked, until a SetKey that names its owner is done.
pub fn key_stays()
    ensures { KeyStays }
{}

/// In a sound book a SetKey is done exactly where the integrator asks it, the supplier is there,
/// and the key has its form and is nobody's.
pub fn set_key_is_done()
    ensures { SetKeyIsDone }
{}

/// A SetKey that is done changes this supplier's key and nothing else.
pub fn set_key_changes_one_key()
    ensures { SetKeyChangesOneKey }
{}
