//! Sources of tokens: the tokens of a JSON text or of a `Value`, one after another. A token is
//! `null`, a boolean, a number, a string, a key, or a bracket that opens or closes an array or
//! object. Contracts say which tokens a call takes, and why it fails.
//!
//! ```
//! use json_tokens::{TextTokens, Token, TokenKind, Tokens};
//! let mut tokens = TextTokens::new("[true, {\"a\": 1}]");
//! assert!(rt; matches!(tokens.next()?, Token::BeginArray));
//! assert!(rt; matches!(tokens.next()?, Token::Bool(true)));
//! tokens.skip()?;
//! assert_eq!(rt; tokens.peek()?, TokenKind::EndArray);
//! ```
#![tactic(auto)]

mod ahead;
mod input_str;
pub mod laws;
mod level;
mod packed_value;
mod piece;
mod refusals;
mod text_tokens;
mod token;
mod tokens;
mod value_tokens;
mod view_tokens;

pub use input_str::InputStr;
pub use piece::{Piece, lend};
pub use refusals::{error_without_place, is_refusal};
pub use text_tokens::TextTokens;
pub use token::{Token, TokenKind, TokenOf, begin_kind};
pub use tokens::Tokens;
pub use value_tokens::ValueTokens;
