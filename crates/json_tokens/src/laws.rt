// Laws over the definitions: what the tokens of a source are.
ghost use Rattle.json_tokens.specs.Laws.{OneTextRow, TextRowBegins, OneValueRow, ValueRowBegins};

pub use crate::text_tokens::text_row_exists;

/// Shows that the tokens which a source over a text has taken are one list: no two lists differ.
pub fn one_text_row()
    ensures { OneTextRow }
{}

/// Shows that the tokens which a source over a text has taken begin the tokens of a tree.
pub fn text_row_begins()
    ensures { TextRowBegins }
{}

/// Shows that the tokens which a source over a value has taken are one list: no two lists differ.
pub fn one_value_row()
    ensures { OneValueRow }
{}

/// Shows that the tokens which a source over a value has taken begin the tokens of a tree.
pub fn value_row_begins()
    ensures { ValueRowBegins }
{}
