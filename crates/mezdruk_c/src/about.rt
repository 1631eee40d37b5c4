// The version of the library, and the names of codes.
ghost use Rattle.std.specs.Prelude.{◌≡◌, None, Some, option_map};
ghost use Rattle.std.specs.Bool.{OnTrue, OnFalse};
ghost use Rattle.mezdruk_c.specs.Codes.{library_version, code_name};

use crate::slice::Slice;

/// Writes the version of the library to `version`: the text `0.1.0`, in bytes that are never freed.
#[unsafe(no_mangle)]
pub extern "C" fn mezdruk_version(version: &mut Slice)
    ensures { version.new.bytes.now ≡ library_version }
{
    *version = Slice { bytes: b"0.1.0" };
}

// Returns the name of a code.
fn name_of_code(code: u8) -> Option<&'static [u8]>
    ensures { option_map (λ s. s.now) result ≡ code_name code }
{
    match code {
        1 => Some(b"NoMemory"),
        3 => Some(b"TooLarge"),
        4 => Some(b"InvalidUTF8"),
        5 => Some(b"EofWhileParsing"),
        6 => Some(b"InvalidLiteral"),
        7 => Some(b"InvalidNumber"),
        8 => Some(b"ExpectedColon"),
        9 => Some(b"ExpectedArrayCommaOrEnd"),
        10 => Some(b"ExpectedObjectCommaOrEnd"),
        11 => Some(b"ExpectObjectKeyOrEnd"),
        12 => Some(b"TrailingComma"),
        13 => Some(b"InvalidJsonValue"),
        14 => Some(b"ControlCharacter"),
        15 => Some(b"InvalidEscape"),
        16 => Some(b"InvalidSurrogate"),
        17 => Some(b"TrailingCharacters"),
        18 => Some(b"RecursionLimitExceeded"),
        19 => Some(b"NotFound"),
        20 => Some(b"TypeUnmatched"),
        21 => Some(b"NumberOutOfRange"),
        25 => Some(b"DuplicateKey"),
        29 => Some(b"BadPointer"),
        30 => Some(b"BadPatch"),
        31 => Some(b"TestFailed"),
        32 => Some(b"BadOptions"),
        33 => Some(b"NoMergePatch"),
        _ => None,
    }
}

/// Writes the name of an error code, such as `EofWhileParsing`, to `name`. `code` is the one of a
/// fault report. Returns false, and leaves `name` unchanged, if no error has this code.
#[unsafe(no_mangle)]
pub extern "C" fn mezdruk_code_name(code: u8, name: &mut Slice) -> bool
    ensures named { OnTrue result (code_name code ≡ Some name.new.bytes.now) }
    ensures lacks { OnFalse result (code_name code ≡ None) }
    ensures untouched { OnFalse result (name.new ≡ name.old) }
{
    match name_of_code(code) {
        Some(bytes) => {
            *name = Slice { bytes };
            true
        }
        None => false,
    }
}
