// The style and the rules that options ask for.
ghost use Rattle.std.specs.Prelude.{◌≡◌, option_map, MatchOption};
ghost use Rattle.mezdruk_arguments.specs.Styles.{spaces_up_to_8, indent_text, command_layout, command_rules};
ghost use Rattle.mezdruk_arguments.specs.declared.verb.Verb.TheVariants as Verb;
ghost use Rattle.json_layout.specs.Styles.{indent_of, is_sorted};
ghost use Rattle.json_text.specs.Ruled.{rules_of};

use crate::setting::{RequestedLayout, Settings};
use crate::verb::Verb;
use json_layout::Style;
use json_text::Rules;

// Returns `count` spaces, at most 8.
fn read_spaces(count: u8) -> &'static str
    ensures { result.now ≡ spaces_up_to_8 count }
{
    match count {
        0 => "",
        1 => " ",
        2 => "  ",
        3 => "   ",
        4 => "    ",
        5 => "     ",
        6 => "      ",
        7 => "       ",
        _ => "        ",
    }
}

impl RequestedLayout {
    /// Returns the whitespace by which each level is indented, or `None` for the layout without
    /// whitespace. More than 8 spaces are not returned.
    pub fn indent(self) -> Option<&'static str>
        ensures text { option_map (λ s. s.now) result ≡ indent_text self }
    {
        match self {
            RequestedLayout::Compact => None,
            RequestedLayout::Spaces(count) => Some(read_spaces(count)),
            RequestedLayout::Tab => Some("\t"),
        }
    }
}

impl Settings {
    /// Returns the layout in which the command prints values. If no option asks for one, it is an
    /// indent of two spaces for `fmt`, and no whitespace for all other commands.
    pub fn layout_for(self, verb: Verb) -> RequestedLayout
        ensures { result ≡ command_layout self verb }
    {
        match (self.layout, verb) {
            (Some(layout), _) => layout,
            (None, Verb::Fmt) => RequestedLayout::Spaces(2),
            (None, _) => RequestedLayout::Compact,
        }
    }

    /// Returns the style in which the command prints values, or `None` for `check`, which prints
    /// none.
    pub fn style_for(self, verb: Verb) -> Option<Style<'static>>
        ensures { MatchOption result (verb ≡ Verb.Check) (λ s.
            (indent_of s ≡ indent_text (command_layout self verb)) × (is_sorted s ≡ self.sorted)) }
    {
        if verb == Verb::Check {
            return None;
        }
        match Style::new(self.layout_for(verb).indent(), self.sorted) {
            Some(style) => Some(style),
            None => unreachable!(),
        }
    }

    /// Returns the rules by which documents are read. They allow at most 254 levels unless an
    /// option asks for another number, and never more than 1,024. Keys may repeat unless an option
    /// forbids it.
    pub fn rules(self) -> Rules
        ensures { rules_of result ≡ command_rules self }
    {
        let levels = self.depth.unwrap_or(Rules::usual().depth());
        match Rules::new(levels.min(1_024), self.unique) {
            Some(rules) => rules,
            None => unreachable!(),
        }
    }
}
