//! Kinds that stand in codes as a byte, and how that byte is read.
ghost use Rattle.std.specs.Prelude.{◌≡◌, ℕ, List, Option};
ghost use Rattle.byte_forms.specs.Inner.Reading.{Gives};
ghost use Rattle.edit_code.specs.Tags.{kind_at, tag_form};

use byte_forms::{ReadFault, Rest};

/// A kind that stands in codes as the byte that is its number.
pub(crate) trait Tag: Copy {
    ghost kinds: { List Self };

    ghost number_of: { Self → ℕ };

    /// The number of the kind.
    fn number(self) -> u8
        ensures { result ≡ number_of self };

    /// The kind of a number, if there is one.
    fn at(number: u8) -> Option<Self>
        ensures { result ≡ kind_at kinds number_of number };
}

/// Reads the byte of a kind.
#[tactic(auto, unfolding(crate::specs::Tags::tag_form))]
pub(crate) fn read_tag<K: Tag>(from: &mut Rest<'_>) -> Result<K, ReadFault>
    ensures { Gives result from.new ((tag_form K.kinds K.number_of).read from.old) }
{
    let left = from.len();
    let number = from.read_byte_from_to(0, 255)?;
    match K::at(number) {
        Some(kind) => Ok(kind),
        None => Err(ReadFault::Left(left)),
    }
}
