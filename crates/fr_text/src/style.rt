//! How the lines of a report are set: as texts of JSON, or each with a line feed.
/// How the lines of a report are set.
#[derive(Clone, Copy)]
pub(crate) enum Style {
    /// Each line is a text of JSON, with commas between them.
    Json,
    /// Each line has a line feed behind it.
    Plain,
}

impl Style {
    ghost use Rattle.std.specs.Prelude.{◌≡◌};
    ghost use Rattle.fr_text.specs.Styles.{before_mark, between_mark, after_mark};

    /// What stands before the first line.
    pub(crate) fn before(self) -> &'static str
        ensures { result.now ≡ before_mark self }
    {
        match self {
            Style::Json => "\"",
            Style::Plain => "",
        }
    }

    /// What stands between two lines.
    pub(crate) fn between(self) -> &'static str
        ensures { result.now ≡ between_mark self }
    {
        match self {
            Style::Json => "\",\"",
            Style::Plain => "\n",
        }
    }

    /// What stands behind the last line.
    pub(crate) fn after(self) -> &'static str
        ensures { result.now ≡ after_mark self }
    {
        match self {
            Style::Json => "\"",
            Style::Plain => "\n",
        }
    }
}
