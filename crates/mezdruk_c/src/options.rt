// How a text is read and laid out.
ghost use Rattle.std.specs.Prelude.{◌≡◌, option_map};
ghost use Rattle.json_model.specs.Print.{IsIndent};
ghost use Rattle.json_layout.specs.Styles.{indent_of, is_sorted};
ghost use Rattle.mezdruk_c.specs.Layouts.{indent_asked};

use json_layout::Style;
use json_text::Rules;

/// How a text is read and how the result is printed. Not valid if `depth` is more than 1,024 or
/// `indent` is more than 10.
#[repr(C)]
#[derive(Clone, Copy)]
pub struct Options {
    /// The greatest number of levels of arrays and objects in the text, at most 1,024. `[]` has 1
    /// level.
    pub depth: u32,
    /// 0 if the names in an object may repeat. With any other number, a repeated name is an error.
    pub unique_keys: u8,
    /// 0 if members keep their order. With any other number, they are sorted by their names.
    pub sort_keys: u8,
    /// The layout of the result: 0 for no whitespace, n + 1 for an indent of n spaces, n from 0 to
    /// 8, and 10 for an indent of a tab.
    pub indent: u8,
}

/// The rules and the style that [`Options`] ask for.
#[derive(Clone, Copy)]
pub struct RequestedSettings {
    /// The rules by which the text is read.
    pub rules: Rules,
    /// The style in which the result is printed.
    pub style: Style<'static>,
}

// Returns the indent of a number; the inner `None` is a text without whitespace.
fn indent_numbered(number: u8) -> Option<Option<&'static str>>
    ensures { option_map (λ i. option_map (λ s. s.now) i) result ≡ indent_asked number }
{
    match number {
        0 => Some(None),
        1 => Some(Some("")),
        2 => Some(Some(" ")),
        3 => Some(Some("  ")),
        4 => Some(Some("   ")),
        5 => Some(Some("    ")),
        6 => Some(Some("     ")),
        7 => Some(Some("      ")),
        8 => Some(Some("       ")),
        9 => Some(Some("        ")),
        10 => Some(Some("\t")),
        _ => None,
    }
}

// Returns the style of an indent of whitespace.
fn style_of(indent: Option<&'static str>, sorted: bool) -> Style<'static>
    requires { IsIndent (option_map (λ s. s.now) indent) }
    ensures indent { indent_of result ≡ option_map (λ s. s.now) indent.entry }
    ensures sorted { is_sorted result ≡ sorted }
{
    match Style::new(indent, sorted) {
        Some(style) => style,
        None => unreachable!(),
    }
}

impl Options {
    ghost use Rattle.std.specs.Prelude.{MatchOption, None, Some};
    ghost use Rattle.json_grammar.specs.Tree.{Tree};
    ghost use Rattle.json_layout.specs.Styles.{printed};
    ghost use Rattle.json_text.specs.Ruled.{rules_of};
    ghost use Rattle.mezdruk_c.specs.Asked.{AreOptions, HasRules, rules_of_options, sorts_asked, text_by_options};

    /// Returns the rules by which a text is read, or `None` if `depth` is more than 1,024.
    pub fn rules(&self) -> Option<Rules>
        ensures { MatchOption result (¬ (HasRules self.now))
            (λ r. HasRules self.now × (rules_of r ≡ rules_of_options self.now)) }
    {
        Rules::new(self.depth, self.unique_keys != 0)
    }

    /// Returns the style in which the result is printed, or `None` if `indent` is more than 10.
    pub fn style(&self) -> Option<Style<'static>>
        ensures { MatchOption result (indent_asked self.now.indent ≡ None)
            (λ s. (indent_asked self.now.indent ≡ Some (indent_of s))
            × (is_sorted s ≡ sorts_asked self.now)) }
    {
        match indent_numbered(self.indent) {
            Some(indent) => Some(style_of(indent, self.sort_keys != 0)),
            None => None,
        }
    }

    /// Returns the rules and the style that the options ask for, or `None` if `depth` is more than
    /// 1,024 or `indent` is more than 10.
    pub fn asked(&self) -> Option<RequestedSettings>
        ensures { MatchOption result (¬ (AreOptions self.now))
            (λ a. AreOptions self.now × (rules_of a.rules ≡ rules_of_options self.now)
            × ((tree : Tree) → text_by_options self.now tree ≡ Some (printed a.style tree))) }
    {
        match (self.rules(), self.style()) {
            (Some(rules), Some(style)) => Some(RequestedSettings { rules, style }),
            (_, _) => None,
        }
    }
}
