//! Laws of the definitions: what is written for a request or an export is read back. So an export
//! that is sent back changes nothing, and elsewhere it brings the supplier's frames along.
ghost use Rattle.fr_text.specs.ExportLaws.{ExportIsReadBack, ExportIsWithinBytes, SentBackChangesNothing, SentIsImported, SentWholeChangesNothing};
ghost use Rattle.fr_text.specs.Laws.{WrittenIsReadBack};
ghost use Rattle.fr_text.specs.ProposalFileLaws.{ProposedIsReadBack};

/// JSON of the fields that are written for a request, with numbers below 2^32, is read back as that request.
pub fn written_is_read_back()
    ensures { WrittenIsReadBack }
{}

/// What a supplier is sent of an export of a sound book is read as an import's rows: exactly the records, at most 512.
pub fn export_is_read_back()
    ensures { ExportIsReadBack }
{}

/// The file of a proposal, of at most 512 placements that may stand in the cluster, is read as an import's rows: exactly these
/// placements, in the order of the wishes. It has at most as many bytes as an import's file.
pub fn proposed_is_read_back()
    ensures { ProposedIsReadBack }
{}

/// What a supplier is sent of an export of a sound book has at most as many bytes as an import's file.
pub fn export_is_within_bytes()
    ensures { ExportIsWithinBytes }
{}

/// What a supplier is sent of a part of its own export of an open variant of a sound book, sent back there as a
/// replacement, changes nothing.
pub fn sent_back_changes_nothing()
    ensures { SentBackChangesNothing }
{}

/// What a supplier is sent of part 0 of its own export of an open variant of a sound book, where part 1 has no record, sent
/// back there as a whole replacement, changes nothing.
pub fn sent_whole_changes_nothing()
    ensures { SentWholeChangesNothing }
{}

/// What a supplier is sent of all parts of its exports of a variant of a sound book, imported into an open variant of one
/// with the same parameters, where it has the same nodes and grants and no frames, brings its frames along: first the
/// frames, then the placements, then the signals, each part under a label that is free.
pub fn sent_is_imported()
    ensures { SentIsImported }
{}
