//! The numbers of refusals, which are explained as their names are.
ghost use Rattle.std.specs.Prelude.{◌≡◌, find, option_copied};
ghost use Rattle.std.specs.Str.{bytes_eq};
ghost use Rattle.fr_guide.specs.RefusalNumbers.{meant_word, numbered, pairs_of};

/// The word that is meant: for a refusal's number the refusal's name, else the word itself.
pub fn meant_word(word: &str) -> &str
    ensures { result.now ≡ meant_word word.now }
{
    match find(&rows(), word) {
        Some(row) => row.1,
        None => word,
    }
}

// The row of this number.
fn find<'a>(
    rows: &'a [(&'static str, &'static str)],
    word: &str,
) -> Option<&'a (&'static str, &'static str)>
    ensures { option_copied result ≡ find (λ row. bytes_eq row.0.now word.now) rows.now }
{
    rows.iter().find(|row| row.0 == word)
}

// The refusals' numbers, as they are written, and their names. Number 29 is that of an import's row that is refused.
#[tactic(auto, unfolding(crate::specs::RefusalNumbers::numbered))]
fn rows() -> [(&'static str, &'static str); 32]
    ensures { pairs_of result ≡ numbered }
{
    [
        ("1", "BadText"),
        ("2", "UnknownKey"),
        ("3", "NotYours"),
        ("4", "BadName"),
        ("5", "BadCycles"),
        ("6", "BadSlot"),
        ("7", "BadChannel"),
        ("8", "BadSignal"),
        ("9", "LabelUsed"),
        ("10", "NoVariant"),
        ("11", "Released"),
        ("12", "NotReleased"),
        ("13", "TooDeep"),
        ("14", "NoSupplier"),
        ("15", "NoNode"),
        ("16", "NoFrame"),
        ("17", "NoSignal"),
        ("18", "NoPlacement"),
        ("19", "Exists"),
        ("20", "NodeDiffers"),
        ("21", "NotGranted"),
        ("22", "InUse"),
        ("23", "Limit"),
        ("24", "Taken"),
        ("25", "CellTaken"),
        ("26", "OutOfPayload"),
        ("27", "BitTaken"),
        ("28", "Unavailable"),
        ("29", "BadRow"),
        ("30", "BadKey"),
        ("31", "KeyTaken"),
        ("32", "NoRoom"),
    ]
}
