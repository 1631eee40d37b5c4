// Examples: texts with their trees, and inputs that are no text with their faults, in the strict
// mode and with at most 254 levels.
ghost use Rattle.json_grammar.specs.Examples.{ObjectText, NumbersText, EscapesText, RepeatedNamesText, WhitespaceText, DeepText, LossyText, BreaksOff, LiteralRefused, LeadingZeroRefused, ColonRefused, ElementEndRefused, MemberEndRefused, NameRefused, TrailingCommaRefused, ElementRefused, ByteOrderMarkRefused, ControlCharacterRefused, EscapeRefused, SurrogateRefused, TrailingCharactersRefused, TooDeepRefused, SmallTreeCounted, SmallTreeTokens, ValueRead};

/// Shows that `{"a": 1, "b": true, "c": null}` is a text of its three members, in their order.
pub fn object_text()
    ensures { ObjectText }
{}

/// Shows that `[-0,1.0,1e400,12345678901234567890123,18446744073709551615]` is a text whose numbers
/// keep their literals (RFC 8259, section 6).
pub fn numbers_text()
    ensures { NumbersText }
{}

/// Shows that `"\ud83d\ude04\u0041\/\u0000"` denotes U+1F604, `A`, `/` and U+0000 (section 7).
pub fn escapes_text()
    ensures { EscapesText }
{}

/// Shows that `{"a":1,"a":null}` keeps both members (section 4).
pub fn repeated_names_text()
    ensures { RepeatedNamesText }
{}

/// Shows that a space and a tab, `[`, a line feed, `]` and a carriage return are a text of an empty
/// array (section 2).
pub fn whitespace_text()
    ensures { WhitespaceText }
{}

/// Shows that 254 opening brackets and 254 closing ones are a text of 254 levels (section 9).
pub fn deep_text()
    ensures { DeepText }
{}

/// Shows that `"\ud800abc"` is U+FFFD and `abc` in the lossy mode (section 8.2).
pub fn lossy_text()
    ensures { LossyText }
{}

/// Shows that an empty input, `-` and `[[[[` fail with `eof_while_parsing` at 0, 1 and 4.
pub fn breaks_off()
    ensures { BreaksOff }
{}

/// Shows that `nulx` fails with `invalid_literal` at 3 (section 3).
pub fn literal_refused()
    ensures { LiteralRefused }
{}

/// Shows that `[01]` fails with `invalid_number` at 2 (section 6).
pub fn leading_zero_refused()
    ensures { LeadingZeroRefused }
{}

/// Shows that `{"a" 1}` fails with `expected_colon` at 5 (section 4).
pub fn colon_refused()
    ensures { ColonRefused }
{}

/// Shows that `[1x` fails with `expected_array_comma_or_end` at 2 (section 5).
pub fn element_end_refused()
    ensures { ElementEndRefused }
{}

/// Shows that `{"a":1 "b"` fails with `expected_object_comma_or_end` at 7 (section 4).
pub fn member_end_refused()
    ensures { MemberEndRefused }
{}

/// Shows that `{1}` fails with `expect_object_key_or_end` at 1 (section 4).
pub fn name_refused()
    ensures { NameRefused }
{}

/// Shows that `{"a":1,}` fails with `trailing_comma` at 7 (section 4).
pub fn trailing_comma_refused()
    ensures { TrailingCommaRefused }
{}

/// Shows that `[1,]` fails with `invalid_json_value` at 3 (section 5).
pub fn element_refused()
    ensures { ElementRefused }
{}

/// Shows that a byte order mark before `1` fails with `invalid_json_value` at 0 (section 8.1).
pub fn byte_order_mark_refused()
    ensures { ByteOrderMarkRefused }
{}

/// Shows that a line feed between quotes fails with `control_character` at 1 (section 7).
pub fn control_character_refused()
    ensures { ControlCharacterRefused }
{}

/// Shows that `"\x"` fails with `invalid_escape` at 2 (section 7).
pub fn escape_refused()
    ensures { EscapeRefused }
{}

/// Shows that `"\ud800abc"` and `"\udc00"` fail with `invalid_surrogate` at 7 and 4 (section 8.2).
pub fn surrogate_refused()
    ensures { SurrogateRefused }
{}

/// Shows that `{} x` fails with `trailing_characters` at 3 (section 2).
pub fn trailing_characters_refused()
    ensures { TrailingCharactersRefused }
{}

/// Shows that 300 opening brackets fail with `recursion_limit_exceeded` at 254 (section 9).
pub fn too_deep_refused()
    ensures { TooDeepRefused }
{}

/// Shows that `{"a":[1,{}]}` has 3 levels, 5 nodes and 2 bytes of text.
pub fn small_tree_counted()
    ensures { SmallTreeCounted }
{}

/// Shows that `{"a":[1,{}]}` has eight tokens, the key before its value.
pub fn small_tree_tokens()
    ensures { SmallTreeTokens }
{}

/// Shows that `[] x` reads as an empty array up to the offset 2, whatever follows it.
pub fn value_read()
    ensures { ValueRead }
{}
