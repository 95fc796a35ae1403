//! A law of the definitions: what was packed is unpacked.
ghost use Rattle.fr_layout.specs.Laws.{UnpackUndoesPack};

/// What was packed under a layout is unpacked to the same values.
pub fn unpack_undoes_pack()
    ensures { UnpackUndoesPack }
{}
