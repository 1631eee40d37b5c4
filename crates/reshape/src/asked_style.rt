// The style that is asked for.
ghost use Rattle.std.specs.Prelude.{◌≡◌, option_map};
ghost use Rattle.json_model.specs.Print.{IsIndent};
ghost use Rattle.reshape.specs.Reshape.{layout_of};
ghost use Rattle.json_text.specs.Ruled.{rules_of};
ghost use Rattle.reshape.specs.Asked.{layout_asked, rules_asked};

use json_layout::Style;
use json_text::Rules;

/// The style of the output and the rules for the input that the arguments of `reshape` ask for.
/// Unless they ask for others, the style is compact and not sorted, and the rules allow at most 254
/// levels and keys that repeat.
///
/// ```
/// use json_text::Words;
/// use reshape::{Asked, asked};
/// let mut words = Words::new(alloc);
/// words.push("--tabs")?;
/// words.push("--sort-keys")?;
/// let Asked::Reshape(_, asked_style) = asked(alloc, &words)? else {
///     return Err("made input".into());
/// };
/// let style = asked_style.style();
/// assert!(rt; style.indent() == Some("\t") && style.sorted());
/// assert_eq!(rt; asked_style.rules().depth(), 254);
/// ```
#[derive(Clone, Copy, Debug)]
pub struct AskedStyle {
    style: Style<'static>,
    rules: Rules,
}

impl AskedStyle {
    /// Creates the settings of this indent and these rules. Members are sorted by their keys if
    /// `sorted` is true. The indent must consist of whitespace; `None` is the compact style.
    pub(crate) fn new(indent: Option<&'static str>, sorted: bool, rules: Rules) -> AskedStyle
        requires { IsIndent (option_map (λ s. s.now) indent) }
        ensures rules { rules_asked result ≡ rules_of rules }
        ensures layout { layout_asked result
            ≡ record { indent = option_map (λ s. s.now) indent.entry; sorts = sorted } }
    {
        match Style::new(indent, sorted) {
            Some(style) => AskedStyle { style, rules },
            None => unreachable!(),
        }
    }

    /// Returns the style of the output: its indent, and whether the members of each object are
    /// sorted by their keys.
    pub fn style(&self) -> Style<'static>
        ensures { layout_of result ≡ layout_asked self.now }
    {
        self.style
    }

    /// Returns the rules by which the input is read: the greatest number of levels, and whether the
    /// keys of each object must differ.
    pub fn rules(&self) -> Rules
        ensures { rules_of result ≡ rules_asked self.now }
    {
        self.rules
    }
}
