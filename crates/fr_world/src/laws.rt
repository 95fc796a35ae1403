//! Laws of pages: what is decided on one, of a change or of a file's rows, is the register's step.
ghost use Rattle.fr_world.specs.Laws.{AllRowsAreChecked, CommonDecides, CommonFits, DecisionFits, DecisionLeads, EditsAgree, GrantDecides, ImportFits, JoiningDecides, JoiningFits, JoiningIsListed, KeyDecides, KeyFits, KeyIsListed, LabelDecides, NewImportDecides, NodeDecides, NodeFits, OthersStay, ReplacementDecides, ReplacementFits, RevokeDecides, RoomDecides, RowsAreChecked, RowsAreTheRegisters, RowsDecide, RowsFit, RowsLead, SoundRowsAreAPage, SupplierDecides, TrialDecides};

/// In a sound book a supplier's rows of a variant are a page's.
pub fn sound_rows_are_a_page()
    ensures { SoundRowsAreAPage }
{}

/// A supplier's rows of a variant stand for the register's page of them.
pub fn rows_are_the_registers()
    ensures { RowsAreTheRegisters }
{}

/// The edits that are decided on a page, whose parameters make a cluster, lead it, one after
/// another, to what the command makes of it. Each adds what is new, or changes or ends what is
/// there. After each a page has the rows.
pub fn decision_leads()
    ensures { DecisionLeads }
{}

/// In a sound book a supplier's command is refused as on the supplier's page of the variant, or makes
/// of the book what the page's edits make of it.
pub fn supplier_decides()
    ensures { SupplierDecides }
{}

/// In a sound book the rows of a supplier's import are refused as on the supplier's page of the variant,
/// the same row for the same reason, or make of the book what the page's edits make of it.
pub fn rows_decide()
    ensures { RowsDecide }
{}

/// In a sound book the rows of a supplier's replacement are refused as on the supplier's page of
/// the variant, the same row for the same reason, or make of the book what the page's edits make of
/// it. The frames that the rows name are freed before the first row is decided.
pub fn replacement_decides()
    ensures { ReplacementDecides }
{}

/// In a sound book the room for a supplier's frame is the same as on the supplier's page of the
/// variant.
pub fn room_decides()
    ensures { RoomDecides }
{}

/// In a sound book the fate of each row of a supplier's file is the same as on the supplier's page.
pub fn trial_decides()
    ensures { TrialDecides }
{}

/// The rows of an import's file are checked under the parameters that they are read by.
pub fn rows_are_checked()
    ensures { RowsAreChecked }
{}

/// All rows of an import's file, to its end, are checked under the parameters that they are read
/// by.
pub fn all_rows_are_checked()
    ensures { AllRowsAreChecked }
{}

/// The edits that are decided on a page, whose parameters make a cluster, for the rows of an import
/// lead it, one after another. Each adds what is new, and after each a page has the rows.
pub fn rows_lead()
    ensures { RowsLead }
{}

/// A grant to a supplier is refused as on the supplier's page of the variant, and then `Taken` where
/// slot and channel are held, or makes of the book what the page's edits make of it.
pub fn grant_decides()
    ensures { GrantDecides }
{}

/// The end of a grant is refused as on the supplier's page of the variant, or makes of the book what
/// the page's edits make of it.
pub fn revoke_decides()
    ensures { RevokeDecides }
{}

/// A supplier that joins is decided by the list of those that are there.
pub fn joining_decides()
    ensures { JoiningDecides }
{}

/// The edit by which a supplier joins fits the register's rows.
pub fn joining_fits()
    ensures { JoiningFits }
{}

/// A supplier of a new name joins the register as it joins the list.
pub fn joining_is_listed()
    ensures { JoiningIsListed }
{}

/// Another key of a supplier is decided by the list of those that are there.
pub fn key_decides()
    ensures { KeyDecides }
{}

/// The edit by which a supplier has another key fits the register's rows.
pub fn key_fits()
    ensures { KeyFits }
{}

/// A supplier that is there has another key in the register as it has in the list.
pub fn key_is_listed()
    ensures { KeyIsListed }
{}

/// A node for a supplier is decided by the supplier's nodes.
pub fn node_decides()
    ensures { NodeDecides }
{}

/// A command on all suppliers is decided by the list of variants.
pub fn common_decides()
    ensures { CommonDecides }
{}

/// An import is decided by its label, and then as one whose label is new.
pub fn label_decides()
    ensures { LabelDecides }
{}

/// In a sound book an import whose label is new is decided by its variant, by the limits, and by what its
/// rows are decided to on the supplier's page.
pub fn new_import_decides()
    ensures { NewImportDecides }
{}

/// An edit of a supplier's rows of a variant makes of the supplier's page in the register what it
/// makes of the page, and releases the variant or leaves it as it was.
pub fn edits_agree()
    ensures { EditsAgree }
{}

/// An edit of a supplier's rows leaves other suppliers' pages as they were, where it grants or ends
/// nothing that another supplier holds.
pub fn others_stay()
    ensures { OthersStay }
{}

/// In a sound book the edits that are decided on a supplier's page of a variant fit the register's rows,
/// one after the other, where nobody holds what they grant.
pub fn decision_fits()
    ensures { DecisionFits }
{}

/// The edits that are decided for the rows of a supplier's import fit the register's rows, one
/// after another.
pub fn rows_fit()
    ensures { RowsFit }
{}

/// The edit that keeps the import fits the register's rows after the edits of its rows, where
/// nothing is kept under the label.
pub fn import_fits()
    ensures { ImportFits }
{}

/// The edits that are decided for a supplier's replacement fit the register's rows, one after
/// another.
pub fn replacement_fits()
    ensures { ReplacementFits }
{}

/// The edit that is decided by a supplier's nodes fits the register's rows.
pub fn node_fits()
    ensures { NodeFits }
{}

/// The edit that is decided by the list of variants fits the register's rows.
pub fn common_fits()
    ensures { CommonFits }
{}
