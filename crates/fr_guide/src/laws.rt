//! Laws of the words and numbers that are explained. Laws of advice on requests, rows and files: a
//! fault is told exactly where the register refuses the text, whatever it holds.
ghost use Rattle.fr_guide.specs.Advice.{AdviceIsExact};
ghost use Rattle.fr_guide.specs.RefusalNumbers.{EachNumberIsNamed};
ghost use Rattle.fr_guide.specs.Laws.{EachConfigFaultIsExplained, EachRefusalIsExplained, FineFilesAreTaken, FineRowsAreTaken, MisformedRequestsAreRefused};

/// The name of each refusal is explained, also that of an import's refused row.
pub fn each_refusal_is_explained()
    ensures { EachRefusalIsExplained }
{}

/// The word of each fault of a cluster file is explained.
pub fn each_config_fault_is_explained()
    ensures { EachConfigFaultIsExplained }
{}

/// Each refusal's number means its name, where it is to be explained.
pub fn each_number_is_named()
    ensures { EachNumberIsNamed }
{}

/// A fault of a request's names or keys is told exactly where the register refuses the request for
/// one of them.
pub fn misformed_requests_are_refused()
    ensures { MisformedRequestsAreRefused }
{}

/// A fault of a record is told exactly where no cluster takes its row.
pub fn fine_rows_are_taken()
    ensures { FineRowsAreTaken }
{}

/// A fault of a file is told exactly where it is longer than an import, has no header or more rows
/// than an import, or has a row that no cluster takes.
pub fn fine_files_are_taken()
    ensures { FineFilesAreTaken }
{}

/// Advice on a text tells nothing exactly where each record of it is fine, or each of its lines.
pub fn advice_is_exact()
    ensures { AdviceIsExact }
{}
