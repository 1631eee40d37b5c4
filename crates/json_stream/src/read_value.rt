// One value of a text, from a place on.
ghost use Rattle.std.specs.Prelude.{◌≡◌, IfSome, IfOk, IfErr, option_copied};
ghost use Rattle.std.specs.Str.{IsCharBoundary};
ghost use Rattle.json_data.specs.Reading.{gives};
ghost use Rattle.json_tokens.specs.Text.{IsFreshReader};
ghost use Rattle.json_tokens.specs.TextValues.{IsPackedAtRoot};
ghost use Rattle.json_stream.specs.Streams.{input_state, TakesNextValue, NextValueFails};

use crate::input_place::at_input_place;
use json_data::Deserialize;
use json_io::{Error, Result, place_of};
use json_scan::ws_run;
use json_text::Repaired;
use json_tokens::{TextTokens, is_refusal};
use std::alloc::Global;

// Returns the tokens of the next value in the text, in either mode.
fn tokens_at<'a>(text: &'a str, lossy: bool, from: usize) -> TextTokens<'a>
    requires { IsCharBoundary text.now from }
    ensures text { result.parser.text ≡ text.now }
    ensures start { (result.parser.start ≡ from) × (result.parser.limit ≡ 254) }
    ensures mode { result.parser.lossy ≡ lossy }
    ensures fresh { IsFreshReader result }
{
    let tokens = TextTokens::at(text, from);
    if lossy { tokens.lossy() } else { tokens }
}

/// Reads the next value of the text from the offset `at` on, in the lossy mode or not. `at` becomes
/// the offset after the value, if that was taken. If the text was repaired, errors have their
/// places in the input.
pub(crate) fn read_next_value<'a, T: Deserialize<'a>>(
    alloc: Global,
    text: &'a str,
    lossy: bool,
    repaired: Option<&Repaired>,
    at: &mut usize,
) -> Result<T>
    requires boundary { IsCharBoundary text.now at.old }
    requires same { IfSome repaired (λ r. r.now.text ≡ text.now) }
    ensures ok { IfOk result (λ v. TakesNextValue T.from_tree
        (input_state text.now lossy (option_copied repaired.entry) at.old)
        (gives (T.datum v))
        (input_state text.now lossy (option_copied repaired.entry) at.new)) }
    ensures place { IfOk result (T.placed IsPackedAtRoot) }
    ensures err { IfErr result (λ e. NextValueFails T.from_tree
        (input_state text.now lossy (option_copied repaired.entry) at.old) e.code e.place
        (input_state text.now lossy (option_copied repaired.entry) at.new)) }
    ensures boundary { IsCharBoundary text.now at.new }
{
    let from = *at;
    let mut tokens = tokens_at(text, lossy, from);
    match T::deserialize(alloc, &mut tokens) {
        Ok(value) => {
            *at = tokens.index();
            Ok(value)
        }
        Err(error) => {
            if !is_refusal(error.code) {
                let _failure = tokens.failure();
                return Err(at_input_place(repaired, error));
            }
            *at = tokens.index();
            let begin = ws_run(text.as_bytes(), from);
            let place = place_of(text.as_bytes(), begin);
            Err(at_input_place(repaired, Error { place, ..error }))
        }
    }
}
