// A program's own type that contains itself.
ghost use Rattle.test_samples.specs.Nested.{nested_datum, read_nested};

use json_data::{DeserializeFrom, InputStr, TokenKind, Tokens, error_without_place, leave_after};
use json_text::{ErrorCode, Result};
use std::alloc::Global;

/// A number, or a list of numbers and such lists.
#[derive(Drop)]
pub enum Nested {
    /// A number from 0 to 255.
    Number(u8),
    /// The elements of a list.
    List(Vec<Nested>),
}

impl<S: InputStr> DeserializeFrom<S> for Nested {
    ghost datum = { nested_datum };

    ghost from_tree = { read_nested };

    fn deserialize<T: Tokens<S>>(alloc: Global, tokens: &mut T) -> Result<Nested> {
        if tokens.peek()? != TokenKind::BeginArray {
            let number = <u8 as DeserializeFrom<S>>::deserialize(alloc, tokens)?;
            return Ok(Nested::Number(number));
        }
        let _begin = tokens.next()?;
        let mut all = Vec::new(alloc);
        while tokens.peek()? != TokenKind::EndArray {
            match <Nested as DeserializeFrom<S>>::deserialize(alloc, tokens) {
                Ok(element) => {
                    if all.push(element).is_err() {
                        return Err(error_without_place(ErrorCode::NoMemory));
                    }
                }
                Err(e) => return Err(leave_after(tokens, e)),
            }
        }
        let _end = tokens.next()?;
        Ok(Nested::List(all))
    }
}
