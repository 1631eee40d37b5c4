// What the program is asked for.
ghost use Rattle.std.specs.Prelude.{◌≡◌, map};
ghost use Rattle.json_value.specs.Edits.{edit_of};
ghost use Rattle.json_text.specs.Ruled.{rules_of};
ghost use Rattle.reshape.specs.Reshape.{layout_of};
ghost use Rattle.reshape.specs.Asked.{asked_command};

use crate::asked_style::AskedStyle;
use crate::edits::Edits;
use crate::made::sorted_style;
use json_layout::Style;
use json_text::Rules;
use json_value::Edit;

/// What the arguments of `reshape` ask for.
///
/// ```
/// use json_text::Words;
/// use reshape::{Asked, asked};
/// let mut words = Words::new(alloc);
/// words.push("--indent=4")?;
/// words.push("[[\"push\",[],true]]")?;
/// let asked = asked(alloc, &words)?;
/// assert!(rt; matches!(asked, Asked::Reshape(_, _)));
/// assert_eq!(rt; asked.edits().len(), 1);
/// assert_eq!(rt; asked.style().indent(), Some("    "));
/// ```
#[derive(Drop)]
pub enum Asked {
    /// The value of the input, edited and printed: the edits apply in order, and the style and the
    /// rules are those of the [`AskedStyle`].
    Reshape(Edits, AskedStyle),
    /// A summary of generated input of this many records, at most 100,000, and of the text that is
    /// printed of it. Only `--make=N` asks for this; the input is not read.
    Made(u32),
}

impl Asked {
    /// Returns the edits, in the order in which they apply. Generated input has none.
    pub fn edits(&self) -> &[Edit]
        ensures { map edit_of result.now ≡ (asked_command self.now).es }
    {
        match self {
            Asked::Reshape(edits, _) => edits.as_slice(),
            Asked::Made(_) => &[],
        }
    }

    /// Returns the style of the output. For generated input it is compact, with members sorted by
    /// their keys.
    pub fn style(&self) -> Style<'static>
        ensures { layout_of result ≡ (asked_command self.now).layout }
    {
        match self {
            Asked::Reshape(_, style) => style.style(),
            Asked::Made(_) => sorted_style(),
        }
    }

    /// Returns the rules by which the input is read. For generated input they are the usual ones:
    /// at most 254 levels, and keys may repeat.
    pub fn rules(&self) -> Rules
        ensures { rules_of result ≡ (asked_command self.now).rules }
    {
        match self {
            Asked::Reshape(_, style) => style.rules(),
            Asked::Made(_) => Rules::usual(),
        }
    }
}
