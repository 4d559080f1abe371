//! The forms that a reader of JSON may want, and the word for each.
ghost use Rattle.std.specs.Prelude.{◌≡◌};

/// The form that a reader wanted of a JSON value.
#[derive(Clone, Copy, Debug, PartialEq, Eq)]
pub enum Wanted {
    /// An object.
    Object,
    /// A list, which JSON calls an array.
    List,
    /// A list with at least one element.
    FilledList,
    /// A text, which JSON calls a string.
    Text,
    /// A whole number within the reader's limit, with no sign, fraction or exponent.
    Whole,
    /// A text that is a name.
    Name,
    /// One of the texts that name a kind.
    Kind,
    /// The number of a session.
    Session,
}

impl Wanted {
    ghost use Rattle.json_view.specs.Words.{word_of};

    /// The word that a refusal prints for this form.
    pub fn word(&self) -> &'static str
        ensures { result.now ≡ word_of self.now }
    {
        match self {
            Wanted::Object => "object",
            Wanted::List => "list",
            Wanted::FilledList => "non-empty list",
            Wanted::Text => "text",
            Wanted::Whole => "whole number",
            Wanted::Name => "name",
            Wanted::Kind => "kind",
            Wanted::Session => "session",
        }
    }
}
